// All functions that a trait asks for, in its order.
ghost use Rattle.std.specs.Prelude.{◌≤◌, ◌≡◌, length, get_or};
ghost use Rattle.image_layout.specs.Rows.{Cut};
ghost use Rattle.project_functions.specs.Asked.{All};
ghost use Rattle.project_functions.specs.Clauses.{ProjectsList};

use crate::parts::Parts;
use answers::answer::Outcome;
use image_layout::Layout;
use rules::ids::NameId;

// The i-th of some names, 0 past their end.
fn name_in(names: &[u32], i: u32) -> NameId
    ensures { result.0 ≡ get_or names.now i 0 }
{
    let k = i as usize;
    if names.len() <= k {
        return NameId(0);
    }
    NameId(names[k])
}

// Their count, and each one of the trait functions at `at`, whose names these are; the implementation's functions stand at these places.
pub fn project_list(
    l: &Layout,
    at: usize,
    names: &[u32],
    params: &[u32],
    places: &[usize],
    parts: Parts,
    out: &mut [u8],
    limit: usize,
    to: usize,
) -> Outcome
    requires { Cut l.now × All l.now params.now at × (limit ≤ length out.old) }
    ensures { ProjectsList l.now at names.now params.now places.now parts out.old out.new limit to result }
{
    let pool = l.pool;
    let count = image_words::section_word(pool, at);
    let mut place = write_words::put(out, limit, to, count);
    let mut next = at + 1;
    for i in 0..count {
        let name = name_in(names, i);
        let f = crate::one::project_one(l, next, name, params, places, parts, out, limit, place);
        if !f.ok {
            return f;
        }
        place = f.length;
        next = impl_functions::places::after_asked(l, next);
    }
    answers::answer::accepted(place, 0)
}
