// The typed statements of one function.
#![tactic(auto)]

ghost use Rattle.std.specs.Prelude.{◌≤◌, length};
ghost use Rattle.project_function.specs.Clauses.{ProjectsStatements, ProjectsFunction};

use crate::statement::project_step;
use answers::answer::Outcome;
use answers::refusal::Refusal;
use image_layout::Layout;
use image_words::after;
use infer_context::Context;
use project_statement::parts::skip_statement;
use project_statement::returns::{project_return, return_mismatch};
use rules::tags::StatementTag;
use type_words::MaybeType;
use write_words::put;

pub mod statement;

// So many statements from `at` on.
pub fn project_statements(
    l: &Layout,
    at: usize,
    count: u32,
    ctx: Context,
    names: &mut [u32],
    words: &mut [u32],
    lens: &mut [u32],
    returns: MaybeType,
    out: &mut [u8],
    limit: usize,
    to: usize,
) -> Outcome
    requires { (limit ≤ length out.old) × (64 ≤ length names.old) × (4096 ≤ length words.old) × (64 ≤ length lens.old) }
    ensures { ProjectsStatements l.now at count ctx names.old words.old lens.old returns out.old out.new limit to result }
{
    let pool = l.pool;
    let function = ctx.function;
    let mut locals = ctx.count;
    let mut next = at;
    let mut place = to;
    for i in 0..count {
        let c = Context {
            function,
            fields: ctx.fields,
            target: ctx.target,
            count: locals,
        };
        if image_words::section_word(pool, next) == StatementTag::RETURN {
            let last = i + 1 == count;
            return project_return(
                l, next, c, names, words, lens, returns, last, out, limit, place,
            );
        }
        let s = project_step(l, next, c, names, words, lens, out, limit, place);
        let done = s.done;
        if !done.ok {
            return done;
        }
        place = done.length;
        locals = s.count;
        next = skip_statement(l, next);
    }
    if returns.some {
        return return_mismatch(function, 2);
    }
    answers::answer::accepted(place, 0)
}

// The body at `at`: its statements' count and their words, with the parameters in view and the return type.
pub fn project_function(
    l: &Layout,
    at: usize,
    ctx: Context,
    names: &mut [u32],
    words: &mut [u32],
    lens: &mut [u32],
    returns: MaybeType,
    out: &mut [u8],
    limit: usize,
    to: usize,
) -> Outcome
    requires { (limit ≤ length out.old) × (64 ≤ length names.old) × (4096 ≤ length words.old) × (64 ≤ length lens.old) × (ctx.count ≤ 32) }
    ensures { ProjectsFunction l.now at ctx names.old words.old lens.old returns out.old out.new limit to result }
{
    let pool = l.pool;
    if image_words::section_word(pool, at) == 0 {
        let function = ctx.function;
        return answers::answer::refused(Refusal::at(12, function));
    }
    let start = after(pool, at);
    let count = image_words::section_word(pool, start);
    let next = put(out, limit, to, count);
    project_statements(
        l,
        after(pool, start),
        count,
        ctx,
        names,
        words,
        lens,
        returns,
        out,
        limit,
        next,
    )
}
