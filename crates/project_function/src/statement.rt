// One statement that is no Return: those behind it are still to come.
ghost use Rattle.std.specs.Prelude.{◌≤◌, length};
ghost use Rattle.project_function.specs.Clauses.{ProjectsStep};

use answers::refusal::Refusal;
use image_layout::Layout;
use infer_context::Context;
use project_let::{Step, project_let};
use project_statement::assigns::project_assign;
use rules::tags::StatementTag;

pub fn project_step(
    l: &Layout,
    at: usize,
    ctx: Context,
    names: &mut [u32],
    words: &mut [u32],
    lens: &mut [u32],
    out: &mut [u8],
    limit: usize,
    to: usize,
) -> Step
    requires { (limit ≤ length out.old) × (64 ≤ length names.old) × (4096 ≤ length words.old) × (64 ≤ length lens.old) }
    ensures { ProjectsStep l.now at ctx names.old names.new words.old words.new
        lens.old lens.new out.old out.new limit to result }
{
    let pool = l.pool;
    let code = image_words::section_word(pool, at);
    if code == StatementTag::LET {
        return project_let(l, at, ctx, names, words, lens, out, limit, to);
    }
    let count = ctx.count;
    if code == StatementTag::ASSIGN {
        let done = project_assign(l, at, ctx, names, words, lens, out, limit, to);
        return Step { done, count };
    }
    let function = ctx.function;
    let done = answers::answer::refused(Refusal::at(15, function));
    Step { done, count }
}
