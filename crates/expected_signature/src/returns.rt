// A trait function's return.
ghost use Rattle.std.specs.Prelude.{ℕ, ◌≤◌};
ghost use Rattle.std.proofs.Math.Option.{Option};
ghost use Rattle.rules.specs.Syntax.{ResolvedType};
ghost use Rattle.image_layout.specs.Rows.{Cut};
ghost use Rattle.type_words.specs.Holds.{MaybeHolds};
ghost use Rattle.expected_signature.specs.Here.{ReturnHere};
ghost use Rattle.expected_signature.specs.Parts.{PartDone, normal_words, normal_poisoned};
ghost use Rattle.expected_signature.specs.Clauses.{ResolvesReturn};

use crate::part::Part;
use image_layout::Layout;
use type_words::MaybeType;

// Void is no return: 0, or 1 and the type's run.
fn put_return(out: &mut [u8], to: usize, t: MaybeType, next: usize, visits: u32) -> Part
    requires { to ≤ 800000000 }
    ensures { (names : ℕ) (o : Option ResolvedType) → MaybeHolds names t o → PartDone normal_words normal_poisoned visits o next to out.old out.new result }
{
    let n = type_tests::normalize_return(t);
    if !n.some {
        let end = answers::output::put(out, to, 0);
        return Part {
            poisoned: false,
            next,
            to: end,
            visits,
        };
    }
    let ty = n.ty;
    let a = answers::output::put(out, to, 1);
    let b = answers::output::put_type(out, a, ty);
    Part {
        poisoned: type_poison::contains_poison(ty),
        next,
        to: b,
        visits,
    }
}

// 0 none, 1 a resolved type, which takes no visit, 2 a type expression; None where that passes a bound.
pub fn resolve_return(
    l: &Layout,
    at: usize,
    params: &[u32],
    out: &mut [u8],
    to: usize,
) -> Option<Part>
    requires { Cut l.now × ReturnHere l.now params.now at × (to ≤ 800000000) }
    ensures { ResolvesReturn l.now at params.now out.old out.new to result }
{
    let pool = l.pool;
    let form = image_words::section_word(pool, at);
    if form == 0 {
        return Some(put_return(out, to, MaybeType::none(), at + 1, 0));
    }
    if form == 1 {
        let h = type_from_pool::hold_type(l, at + 1);
        let ty = h.ty;
        return Some(put_return(out, to, MaybeType::some(ty), h.next, 0));
    }
    let s = subst::whole::substitute(l, at + 1, params)?;
    let ty = s.ty;
    Some(put_return(out, to, MaybeType::some(ty), s.next, s.visits))
}
