// The signature that a trait function asks for, held: its parameters in the table of locals, its return beside; and its words written from there.
#![tactic(auto)]

ghost use Rattle.std.specs.Prelude.{ℕ, ◌≤◌, length};
ghost use Rattle.std.proofs.Math.Option.{Option, some};
ghost use Rattle.rules.specs.Syntax.{ResolvedType};
ghost use Rattle.rules.specs.Types.{return_words};
ghost use Rattle.rules.specs.Signatures.{resolve_return};
ghost use Rattle.image_layout.specs.Rows.{Cut};
ghost use Rattle.type_words.specs.Holds.{Holds, MaybeHolds};
ghost use Rattle.write_words.specs.Written.{Written};
ghost use Rattle.expected_signature.specs.Here.{ParamsHere, ReturnHere};
ghost use Rattle.expected_locals.specs.Entered.{ReturnedSays, ReturnedDone};
ghost use Rattle.expected_locals.specs.Clauses.{EntersParams, PutsParam, PutsParams, PutsSignature};

use image_layout::Layout;
use rules::bounds::LOCAL_ROWS;
use rules::ids::NameId;
use type_words::{HeldType, MaybeType};

// How many parameters there are, and the place behind them in the pool.
#[derive(Clone, Copy)]
pub struct Entered {
    pub count: usize,
    pub next: usize,
}

// The return's type or none, and the place behind it in the pool.
#[derive(Clone, Copy)]
pub struct Returned {
    pub ty: MaybeType,
    pub next: usize,
}

// A trait function's parameters, substituted: a row of the table for each. None where one passes a bound.
pub fn enter_params(
    l: &Layout,
    at: usize,
    params: &[u32],
    names: &mut [u32],
    words: &mut [u32],
    lens: &mut [u32],
) -> Option<Entered>
    requires { Cut l.now × ParamsHere l.now params.now at × (64 ≤ length names.old) × (4096 ≤ length words.old) × (64 ≤ length lens.old) }
    ensures { EntersParams l.now at params.now names.new words.new lens.new result }
{
    let pool = l.pool;
    let count = image_words::section_word(pool, at) as usize;
    let mut next = at + 1;
    for i in 0..count {
        let s = subst::whole::substitute(l, next + 1, params)?;
        let ty = s.ty;
        let name = NameId(image_words::section_word(pool, next));
        locals::add_local(names, words, lens, i, name, ty);
        next = s.next;
    }
    Some(Entered { count, next })
}

// A type as a return: Void is none.
fn as_return(ty: HeldType, next: usize) -> Returned
    ensures { (rows : ℕ) (t : ResolvedType) → Holds rows ty t → ReturnedDone rows (some t) next result }
{
    Returned {
        ty: type_tests::normalize_return(MaybeType::some(ty)),
        next,
    }
}

// A trait function's return, substituted: 0 none, 1 a resolved type, 2 a type expression. None where that passes a bound.
pub fn enter_return(l: &Layout, at: usize, params: &[u32]) -> Option<Returned>
    requires { Cut l.now × ReturnHere l.now params.now at }
    ensures { (h : ReturnHere l.now params.now at) → ReturnedSays l.now.names.rows (resolve_return h.schema h.seen h.tree) h.behind result }
{
    let pool = l.pool;
    let form = image_words::section_word(pool, at);
    if form == 0 {
        return Some(Returned {
            ty: MaybeType::none(),
            next: at + 1,
        });
    }
    if form == 1 {
        let h = type_from_pool::hold_type(l, at + 1);
        let ty = h.ty;
        return Some(as_return(ty, h.next));
    }
    let s = subst::whole::substitute(l, at + 1, params)?;
    let ty = s.ty;
    Some(as_return(ty, s.next))
}

// A row's name, and its type's words.
fn put_param(
    names: &[u32],
    words: &[u32],
    lens: &[u32],
    i: usize,
    out: &mut [u8],
    limit: usize,
    to: usize,
) -> usize
    requires { limit ≤ length out.old }
    ensures { PutsParam names.now words.now lens.now i out.old out.new limit to result }
{
    if names.len() <= i {
        return to;
    }
    let ty = locals::local_type(words, lens, i);
    let a = write_words::put(out, limit, to, names[i]);
    write_words::put_type(out, limit, a, ty)
}

// The count of the rows, and each one.
fn put_params(
    names: &[u32],
    words: &[u32],
    lens: &[u32],
    count: usize,
    out: &mut [u8],
    limit: usize,
    to: usize,
) -> usize
    requires { limit ≤ length out.old }
    ensures { PutsParams names.now words.now lens.now count out.old out.new limit to result }
{
    if LOCAL_ROWS < count {
        return to;
    }
    let mut next = write_words::put(out, limit, to, count as u32);
    for i in 0..count {
        next = put_param(names, words, lens, i, out, limit, next);
    }
    next
}

// 0 for none, or 1 and the type's run.
fn put_return(returns: MaybeType, out: &mut [u8], limit: usize, to: usize) -> usize
    requires { limit ≤ length out.old }
    ensures { (rows : ℕ) (o : Option ResolvedType) → MaybeHolds rows returns o → Written limit to (return_words o) out.old result out.new }
{
    if !returns.some {
        return write_words::put(out, limit, to, 0);
    }
    let ty = returns.ty;
    let a = write_words::put(out, limit, to, 1);
    write_words::put_type(out, limit, a, ty)
}

// A name, the rows as parameters, and the return.
pub fn put_signature(
    name: NameId,
    names: &[u32],
    words: &[u32],
    lens: &[u32],
    count: usize,
    returns: MaybeType,
    out: &mut [u8],
    limit: usize,
    to: usize,
) -> usize
    requires { limit ≤ length out.old }
    ensures { PutsSignature name names.now words.now lens.now count returns out.old out.new limit to result }
{
    let a = write_words::put(out, limit, to, name.0);
    let b = put_params(names, words, lens, count, out, limit, a);
    put_return(returns, out, limit, b)
}
