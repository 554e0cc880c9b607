// What a node of a type expression has to resolve, and nodes that have nothing.
#![tactic(auto)]

ghost use Rattle.std.specs.Prelude.{◌<◌, ◌≡◌, true, false};
ghost use Rattle.subst_parts.specs.declared.Parts.{Parts};
ghost use Rattle.image_layout.specs.Rows.{Cut};
ghost use Rattle.subst_leaves.specs.Says.{Keeps};
ghost use Rattle.subst_parts.specs.Parts.{NodeAt, AsItIs, BeginsBehind, StartsAt, ResolvesWhole};

use image_layout::Layout;
use rules::bounds::TYPE_WORDS;
use rules::ids::NameId;
use rules::kinds::TypeKind;
use subst_leaves::{Resolved, failed};
use subst_names::generic::{Alias, lookup_alias};

// A node with no part, or with no visit left for it, is whole. An alias's parts are its argument, then its target.
#[derive(Clone, Copy)]
pub enum Parts {
    Whole,
    One,
    Fixed,
    Two,
    Alias,
}

// A node's parts, where the first of them stands, and the alias that it names.
#[derive(Clone, Copy)]
pub struct Node {
    pub parts: Parts,
    pub first: usize,
    pub alias: Alias,
}

fn no_alias() -> Alias
    ensures { result.some ≡ false }
{
    Alias {
        some: false,
        param: NameId::NONE,
        target: 0,
    }
}

fn whole() -> Node
    ensures { (result.parts ≡ Parts.Whole) × (result.first ≡ 0) × (result.alias.some ≡ false) }
{
    Node {
        parts: Parts::Whole,
        first: 0,
        alias: no_alias(),
    }
}

pub fn node_at(l: &Layout, at: usize, left: u32) -> Node
    requires { Cut l.now }
    ensures { NodeAt l.now at left result }
{
    let pool = l.pool;
    if left == 0 {
        return whole();
    }
    if image_words::count(pool) <= at {
        return whole();
    }
    let k = codes::type_kind(image_words::section_word(pool, at));
    match k {
        TypeKind::One => Node {
            parts: Parts::One,
            first: at + 1,
            alias: no_alias(),
        },
        TypeKind::Fixed => Node {
            parts: Parts::Fixed,
            first: at + 1 + 1 + 1,
            alias: no_alias(),
        },
        TypeKind::Two => Node {
            parts: Parts::Two,
            first: at + 1,
            alias: no_alias(),
        },
        TypeKind::Generic => {
            let x = NameId(image_words::section_word(pool, at + 1));
            let alias = lookup_alias(l, x);
            if alias.some {
                return Node {
                    parts: Parts::Alias,
                    first: at + 1 + 1,
                    alias,
                };
            }
            whole()
        }
        _ => whole(),
    }
}

// Where an expression is resolved from behind n words: of a node of two parts, whose code has room there, from its first
// part on, and then the second is still to come; anything else as it is.
#[derive(Clone, Copy)]
pub struct Behind {
    pub again: bool,
    pub at: usize,
    pub left: u32,
    pub len: usize,
}

pub fn start_behind(node: Node, at: usize, left: u32, n: usize) -> Behind
    requires { node.parts ≡ Parts.Two → 0 < left }
    ensures { BeginsBehind node at left n result }
{
    let parts = node.parts;
    match parts {
        Parts::Whole => as_it_is(at, left, n),
        Parts::One => as_it_is(at, left, n),
        Parts::Fixed => as_it_is(at, left, n),
        Parts::Two => {
            if n < TYPE_WORDS {
                return Behind {
                    again: true,
                    at: node.first,
                    left: left - 1,
                    len: n + 1,
                };
            }
            as_it_is(at, left, n)
        }
        Parts::Alias => as_it_is(at, left, n),
    }
}

fn as_it_is(at: usize, left: u32, n: usize) -> Behind
    ensures { AsItIs at left n result }
{
    Behind {
        again: false,
        at,
        left,
        len: n,
    }
}

// What of an alias's target is resolved first, with the visits left for it: its argument, where it is an alias again.
#[derive(Clone, Copy)]
pub struct Start {
    pub at: usize,
    pub left: u32,
}

pub fn start_of(node: Node, target: usize, left: u32) -> Start
    requires { node.alias.some ≡ true → 0 < left }
    ensures { StartsAt node target left result }
{
    let alias = node.alias;
    if alias.some {
        return Start {
            at: node.first,
            left: left - 1,
        };
    }
    Start { at: target, left }
}

// A node that is whole: its type, with one visit. A generic name that is no alias reads no argument.
pub fn resolve_whole(l: &Layout, at: usize, left: u32, params: &[u32]) -> Resolved
    requires { Cut l.now }
    ensures { Keeps left result (ResolvesWhole l.now at left params.now result) }
{
    if left == 0 {
        return failed();
    }
    let pool = l.pool;
    if image_words::count(pool) <= at {
        return failed();
    }
    let k = codes::type_kind(image_words::section_word(pool, at));
    match k {
        TypeKind::Plain => subst_leaves::leaf(l, at, left - 1),
        TypeKind::Sub => subst_leaves::leaf(l, at, left - 1),
        TypeKind::Bits => subst_leaves::leaf(l, at, left - 1),
        TypeKind::Named => subst_leaves::named(l, at, left - 1, params),
        TypeKind::Qualified => subst_leaves::qualified(l, at, left - 1),
        TypeKind::Generic => subst_leaves::poison(l, at + 1 + 1, left - 1),
        TypeKind::One => failed(),
        TypeKind::Fixed => failed(),
        TypeKind::Two => failed(),
        TypeKind::Unknown => failed(),
    }
}
