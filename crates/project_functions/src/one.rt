// One function that a trait asks for.
ghost use Rattle.std.specs.Prelude.{◌≤◌, length};
ghost use Rattle.image_layout.specs.Rows.{Cut};
ghost use Rattle.project_functions.specs.Asked.{One};
ghost use Rattle.project_functions.specs.Clauses.{ProjectsOne};

use crate::parts::Parts;
use answers::answer::Outcome;
use answers::refusal::Refusal;
use check_signature::{body_start, check_signature};
use expected_locals::{enter_params, enter_return, put_signature};
use image_layout::Layout;
use infer_context::Context;
use locals::LOCAL_WORDS;
use rules::bounds::LOCAL_ROWS;
use rules::ids::NameId;

// The trait function at `at`, which has this name, with these type parameters in view, the implementation's functions at these places: 11, its signature, 12, its body.
pub fn project_one(
    l: &Layout,
    at: usize,
    name: NameId,
    params: &[u32],
    places: &[usize],
    parts: Parts,
    out: &mut [u8],
    limit: usize,
    to: usize,
) -> Outcome
    requires { Cut l.now × One l.now params.now at × (limit ≤ length out.old) }
    ensures { ProjectsOne l.now at name params.now places.now parts out.old out.new limit to result }
{
    let Some(start) = impl_functions::search::find_function(l, places, name) else {
        return answers::answer::refused(Refusal::at(11, name));
    };
    let mut names = [0u32; LOCAL_ROWS];
    let mut words = [0u32; LOCAL_WORDS];
    let mut lens = [0u32; LOCAL_ROWS];
    let e = enter_params(l, at + 1, params, &mut names, &mut words, &mut lens).unwrap();
    let count = e.count;
    let t = enter_return(l, e.next, params).unwrap();
    let returns = t.ty;
    let c = check_signature(l, start, name, &names, &words, &lens, count, returns);
    if !c.ok {
        return c;
    }
    let next = put_signature(name, &names, &words, &lens, count, returns, out, limit, to);
    let ctx = Context {
        function: name,
        fields: parts.fields,
        target: parts.target,
        count,
    };
    let body = body_start(l, start);
    project_function::project_function(
        l, body, ctx, &mut names, &mut words, &mut lens, returns, out, limit, next,
    )
}
