// Lets: a value under the type written or its own, and a local more.
#![tactic(auto)]

ghost use Rattle.std.specs.Prelude.{◌≤◌, length};
ghost use Rattle.project_let.specs.Clauses.{WritesLet, ProjectsLet};

use crate::written::written_type;
use answers::answer::Outcome;
use image_layout::Layout;
use infer_context::Context;
use rules::bounds::{LOCAL_ROWS, NESTING};
use rules::ids::NameId;
use rules::tags::StatementTag;
use type_words::HeldType;

mod written;

// What comes of one statement: its refusal, or where the next word goes; and how many locals are in view behind it.
#[derive(Clone, Copy)]
pub struct Step {
    pub done: Outcome,
    pub count: usize,
}

// The context of its value.
const LOCAL_BINDING: u32 = 3;

// The words of a Let whose accepted value stands at `at`.
fn write_let(
    l: &Layout,
    ctx: Context,
    names: &[u32],
    words: &[u32],
    lens: &[u32],
    at: usize,
    name: NameId,
    ty: HeldType,
    out: &mut [u8],
    limit: usize,
    to: usize,
) -> usize
    requires { limit ≤ length out.old }
    ensures { WritesLet l.now ctx names.now words.now lens.now at name ty out.old out.new limit to result }
{
    let a = write_words::put_two(out, limit, to, StatementTag::LET, name.0);
    let b = write_words::put_type(out, limit, a, ty);
    write_expr::write_expr(l, ctx, names, words, lens, at, NESTING, ty, out, limit, b)
}

// A Let. Of at most 32 parameters and 32 Lets each finds a row; a full table is passed over.
pub fn project_let(
    l: &Layout,
    at: usize,
    ctx: Context,
    names: &mut [u32],
    words: &mut [u32],
    lens: &mut [u32],
    out: &mut [u8],
    limit: usize,
    to: usize,
) -> Step
    requires { (limit ≤ length out.old) × (64 ≤ length names.old) × (4096 ≤ length words.old) × (64 ≤ length lens.old) }
    ensures { ProjectsLet l.now at ctx names.old names.new words.old words.new
        lens.old lens.new out.old out.new limit to result }
{
    let count = ctx.count;
    let function = ctx.function;
    if LOCAL_ROWS <= count {
        let done = answers::answer::accepted(to, 0);
        return Step { done, count };
    }
    let name = NameId(infer_context::operand(l, at));
    let w = written_type(l, infer_context::first_part(l, at));
    let expected = w.ty;
    let value = w.next;
    let r = infer_expr::infer_expr(
        l,
        ctx,
        names,
        words,
        lens,
        value,
        NESTING,
        expected,
        LOCAL_BINDING,
    );
    let done = project_let_tests::check_let(names, count, function, name, r);
    if !done.ok {
        return Step { done, count };
    }
    let ty = r.ty;
    let next = write_let(l, ctx, names, words, lens, value, name, ty, out, limit, to);
    locals::add_local(names, words, lens, count, name, ty);
    let done = answers::answer::accepted(next, 0);
    Step {
        done,
        count: count + 1,
    }
}
