// A trait function's parameters.
ghost use Rattle.std.specs.Prelude.{◌≤◌};
ghost use Rattle.image_layout.specs.Rows.{Cut};
ghost use Rattle.expected_signature.specs.Here.{ParamHere, ParamsHere};
ghost use Rattle.expected_signature.specs.Clauses.{ResolvesParam, ResolvesParams};

use crate::part::Part;
use image_layout::Layout;

// A name, and its type substituted; None where that passes a bound.
pub fn resolve_param(
    l: &Layout,
    at: usize,
    params: &[u32],
    out: &mut [u8],
    to: usize,
) -> Option<Part>
    requires { Cut l.now × ParamHere l.now params.now at × (to ≤ 800000000) }
    ensures { ResolvesParam l.now at params.now out.old out.new to result }
{
    let s = subst::whole::substitute(l, at + 1, params)?;
    let pool = l.pool;
    let ty = s.ty;
    let a = answers::output::put(out, to, image_words::section_word(pool, at));
    let b = answers::output::put_type(out, a, ty);
    Some(Part {
        poisoned: type_poison::contains_poison(ty),
        next: s.next,
        to: b,
        visits: s.visits,
    })
}

// Their count, and each one; None where one passes a bound.
pub fn resolve_params(
    l: &Layout,
    at: usize,
    params: &[u32],
    out: &mut [u8],
    to: usize,
) -> Option<Part>
    requires { Cut l.now × ParamsHere l.now params.now at × (to ≤ 700000000) }
    ensures { ResolvesParams l.now at params.now out.old out.new to result }
{
    let pool = l.pool;
    let count = image_words::section_word(pool, at);
    let mut place = answers::output::put(out, to, count);
    let mut poisoned = false;
    let mut visits = 0;
    let mut next = at + 1;
    for _ in 0..count {
        let p = resolve_param(l, next, params, out, place)?;
        place = p.to;
        poisoned = poisoned | p.poisoned;
        visits += p.visits;
        next = p.next;
    }
    Some(Part {
        poisoned,
        next,
        to: place,
        visits,
    })
}
