// A statement's value: typed, then written.
ghost use Rattle.std.specs.Prelude.{◌≤◌, length};
ghost use Rattle.project_statement.specs.Clauses.{ProjectsValue};

use answers::answer::Outcome;
use image_layout::Layout;
use infer_context::Context;
use rules::bounds::NESTING;
use type_words::MaybeType;

// The value at `at` under an expected type or none; a mismatch is refused in the caller's context.
pub fn project_value(
    l: &Layout,
    ctx: Context,
    names: &[u32],
    words: &[u32],
    lens: &[u32],
    at: usize,
    expected: MaybeType,
    context: u32,
    out: &mut [u8],
    limit: usize,
    to: usize,
) -> Outcome
    requires { limit ≤ length out.old }
    ensures { ProjectsValue l.now ctx names.now words.now lens.now at expected context out.old out.new limit to result }
{
    let r = infer_expr::infer_expr(l, ctx, names, words, lens, at, NESTING, expected, context);
    if r.number != 0 {
        return project_outcome::refuse_value(ctx.function, r);
    }
    let ty = r.ty;
    let next = write_expr::write_expr(l, ctx, names, words, lens, at, NESTING, ty, out, limit, to);
    answers::answer::accepted(next, 0)
}
