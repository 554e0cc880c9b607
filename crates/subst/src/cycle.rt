// Nodes with parts: the resolver and the expander of generic aliases, which call each other. The visits left fall with each node read.
//
// These calls nest up to 1,024 deep, so what comes of an expression lies in a lent place: `append` and `expand` hold one by
// value, beside it `expand` its parameter's row, and `append` a copy of the type that it puts behind the words; `resolve` holds
// none. What grows lies in lent words. A function that calls itself is not made part of its callers: so each of the three has a
// frame of its own.
ghost use Rattle.std.specs.Prelude.{◌≤◌, ◌≡◌, length};
ghost use Rattle.image_layout.specs.Rows.{Cut};
ghost use Rattle.subst_leaves.specs.Says.{Keeps};
ghost use Rattle.subst_leaves.specs.Nodes.{Substitutes};
ghost use Rattle.subst_parts.specs.Parts.{ResolvesWhole};
ghost use Rattle.subst.specs.Lent.{Appends, Expands};

use image_layout::Layout;
use rules::bounds::TYPE_WORDS;
use subst_leaves::Resolved;
use subst_names::generic::Alias;
use subst_parts::{Parts, node_at, resolve_whole, start_behind, start_of};
use type_words::HeldType;
use type_words::lent::{push_back, push_fixed, push_front, put_at};

// What comes of an expression beside its words, which are lent: whether poison occurs in what it resolves to, and not in the
// words before. The flags stand together: a frame of the cycle has such an end.
#[derive(Clone, Copy)]
pub struct End {
    pub ok: bool,
    pub poison: bool,
    pub next: usize,
    pub left: u32,
    pub len: usize,
}

// The expression at `at`, its words behind the first n. Of a node of two parts the code and the first part come first,
// and it goes on with the second.
#[cycle(append_expand_resolve)]
fn append(
    l: &Layout,
    at: usize,
    left: u32,
    params: &[u32],
    words: &mut [u32; TYPE_WORDS],
    n: usize,
) -> End
    requires { Cut l.now × (length words.old ≡ 64) × (n ≤ 64) }
    ensures { Appends l.now at left params.now words.old n result words.new }
{
    let node = node_at(l, at, left);
    let start = start_behind(node, at, left, n);
    let pool = l.pool;
    put_at(words, n, image_words::section_word(pool, at));
    let mut b = nothing();
    resolve(l, start.at, start.left, params, &mut b);
    let g = push_back(words, start.len, b.ty);
    let ok = b.ok & g.is_some();
    let len = g.unwrap_or(n);
    if start.again {
        if ok {
            let mut rest = append(l, b.next, b.left, params, words, len);
            rest.poison = b.ty.poison | rest.poison;
            return rest;
        }
    }
    End {
        ok,
        poison: b.ty.poison,
        next: b.next,
        left: b.left,
        len,
    }
}

// An alias whose argument is the first n words: its target in their place, with only its own parameter in view. A target
// that is an alias again is expanded in turn: its argument first. The place behind an alias is the one behind its argument,
// which the caller has.
#[cycle(append_expand_resolve)]
fn expand(
    l: &Layout,
    alias: Alias,
    left: u32,
    words: &mut [u32; TYPE_WORDS],
    n: usize,
    poison: bool,
) -> End
    requires { Cut l.now × (length words.old ≡ 64) }
    ensures { Expands l.now alias left words.old n poison result words.new }
{
    let given = *words;
    let argument = HeldType {
        words: given,
        len: n,
        poison,
    };
    let mut own = [0u32; subst_params::ROW];
    subst_params::write_row(&mut own, 0, alias.param, argument);
    let view = subst_params::rows(&own, 1);
    let target = alias.target;
    let node = node_at(l, target, left);
    let start = start_of(node, target, left);
    let mut b = nothing();
    resolve(l, start.at, start.left, view, &mut b);
    let ty = b.ty;
    let len = ty.len;
    let own_words = ty.words;
    *words = own_words;
    let again = node.alias;
    if again.some {
        if b.ok {
            return expand(l, again, b.left, words, len, ty.poison);
        }
    }
    End {
        ok: b.ok,
        poison: ty.poison,
        next: 0, // none of its own
        left: b.left,
        len,
    }
}

// What the expression at `at` resolves to, in a lent place: so a frame of the cycle has no place for it.
#[cycle(append_expand_resolve)]
fn resolve(l: &Layout, at: usize, left: u32, params: &[u32], a: &mut Resolved)
    requires { Cut l.now }
    ensures keeps { Keeps left a.new (Substitutes l.now at left params.now a.new) }
    ensures wide { length a.new.ty.words ≡ 64 }
{
    let node = node_at(l, at, left);
    let first = node.first;
    if first == 0 {
        whole_into(l, at, left, params, a);
        return;
    }
    resolve(l, first, left - 1, params, a);
    if !a.ok {
        return;
    }
    let pool = l.pool;
    let next = a.next;
    let rest = a.left;
    let n = a.ty.len;
    let parts = node.parts;
    match parts {
        Parts::Whole => {
            a.ok = false;
            return;
        }
        Parts::One => {
            let code = image_words::section_word(pool, at);
            let g = push_front(code, &mut a.ty.words, n);
            a.ok = g.is_some();
            a.ty.len = g.unwrap_or(n);
            return;
        }
        Parts::Fixed => {
            let low = image_words::section_word(pool, at + 1);
            let high = image_words::section_word(pool, at + 1 + 1);
            let g = push_fixed(low, high, &mut a.ty.words, n);
            a.ok = g.is_some();
            a.ty.len = g.unwrap_or(n);
            return;
        }
        Parts::Two => {
            let code = image_words::section_word(pool, at);
            let Some(len) = push_front(code, &mut a.ty.words, n) else {
                a.ok = false;
                return;
            };
            let e = append(l, next, rest, params, &mut a.ty.words, len);
            a.ok = e.ok;
            a.next = e.next;
            a.left = e.left;
            a.ty.len = e.len;
            a.ty.poison = a.ty.poison | e.poison;
            return;
        }
        Parts::Alias => {
            let poison = a.ty.poison;
            let e = expand(l, node.alias, rest, &mut a.ty.words, n, poison);
            a.ok = e.ok;
            a.left = e.left;
            a.ty.len = e.len;
            a.ty.poison = e.poison;
            return;
        }
    }
}

// A node that is whole, in the lent place. A function of its own, so that its answer's place is in no frame of the cycle.
fn whole_into(l: &Layout, at: usize, left: u32, params: &[u32], a: &mut Resolved)
    requires { Cut l.now }
    ensures keeps { Keeps left a.new (ResolvesWhole l.now at left params.now a.new) }
    ensures wide { length a.new.ty.words ≡ 64 }
{
    *a = resolve_whole(l, at, left, params);
}

// A place for what comes of an expression.
fn nothing() -> Resolved {
    Resolved {
        ok: false,
        next: 0,
        left: 0,
        ty: HeldType {
            words: [0u32; TYPE_WORDS],
            len: 0,
            poison: false,
        },
    }
}

pub fn substitute_type(l: &Layout, at: usize, left: u32, params: &[u32]) -> Resolved
    requires { Cut l.now }
    ensures { Keeps left result (Substitutes l.now at left params.now result) }
{
    let mut a = nothing();
    resolve(l, at, left, params, &mut a);
    a
}
