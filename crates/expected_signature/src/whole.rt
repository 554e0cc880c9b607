// A whole signature.
ghost use Rattle.std.specs.Prelude.{◌≤◌};
ghost use Rattle.image_layout.specs.Rows.{Cut};
ghost use Rattle.expected_signature.specs.Here.{FunctionHere};
ghost use Rattle.expected_signature.specs.Clauses.{ResolvesSignature};

use crate::part::Part;
use image_layout::Layout;

// A name, the parameters and the return; None where a type passes a bound.
pub fn resolve_signature(
    l: &Layout,
    at: usize,
    params: &[u32],
    out: &mut [u8],
    to: usize,
) -> Option<Part>
    requires { Cut l.now × FunctionHere l.now params.now at × (to ≤ 600000000) }
    ensures { ResolvesSignature l.now at params.now out.old out.new to result }
{
    let pool = l.pool;
    let a = answers::output::put(out, to, image_words::section_word(pool, at));
    let p = crate::params::resolve_params(l, at + 1, params, out, a)?;
    let m = p.next;
    let b = p.to;
    let t = crate::returns::resolve_return(l, m, params, out, b)?;
    Some(Part {
        poisoned: p.poisoned | t.poisoned,
        next: t.next,
        to: t.to,
        visits: p.visits + t.visits,
    })
}
