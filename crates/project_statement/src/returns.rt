// Returns: what a function gives back, and 22 and 23.
ghost use Rattle.std.specs.Prelude.{◌≡◌, false, [], ◌∷◌, ◌≤◌, length};
ghost use Rattle.rules.specs.Refusal.{with_detail};
ghost use Rattle.answers.specs.Refusals.{refusal_of};
ghost use Rattle.project_statement.specs.Clauses.{ReturnsNothing, ReturnsValue, ProjectsReturn};

use crate::value::project_value;
use answers::answer::Outcome;
use answers::refusal::Refusal;
use image_layout::Layout;
use infer_context::Context;
use rules::ids::NameId;
use rules::tags::StatementTag;
use type_words::MaybeType;
use write_words::put_two;

// The context of its value.
const RETURN_VALUE: u32 = 4;

// 22: kind 0 a void function gives a value, 1 the value is missing, 2 the body does not end with Return.
pub fn return_mismatch(function: NameId, kind: u32) -> Outcome
    ensures { (result.ok ≡ false) × (refusal_of result.refusal ≡ with_detail 22 function.0 (kind ∷ [])) }
{
    answers::answer::refused(Refusal::at(22, function).word(kind))
}

// A Return with no value.
fn return_nothing(
    function: NameId,
    returns: MaybeType,
    last: bool,
    out: &mut [u8],
    limit: usize,
    to: usize,
) -> Outcome
    requires { limit ≤ length out.old }
    ensures { ReturnsNothing function returns last out.old out.new limit to result }
{
    if returns.some {
        return return_mismatch(function, 1);
    }
    if !last {
        return answers::answer::refused(Refusal::at(23, function));
    }
    let a = put_two(out, limit, to, StatementTag::RETURN, 0);
    answers::answer::accepted(a, 0)
}

// A Return of the value at `at`.
fn return_value(
    l: &Layout,
    at: usize,
    ctx: Context,
    names: &[u32],
    words: &[u32],
    lens: &[u32],
    returns: MaybeType,
    last: bool,
    out: &mut [u8],
    limit: usize,
    to: usize,
) -> Outcome
    requires { limit ≤ length out.old }
    ensures { ReturnsValue l.now at ctx names.now words.now lens.now returns last out.old out.new limit to result }
{
    let function = ctx.function;
    if !returns.some {
        return return_mismatch(function, 0);
    }
    let a = put_two(out, limit, to, StatementTag::RETURN, 1);
    let r = project_value(
        l,
        ctx,
        names,
        words,
        lens,
        at,
        returns,
        RETURN_VALUE,
        out,
        limit,
        a,
    );
    if !r.ok {
        return r;
    }
    if !last {
        return answers::answer::refused(Refusal::at(23, function));
    }
    r
}

// A Return; `last` where no statement follows.
pub fn project_return(
    l: &Layout,
    at: usize,
    ctx: Context,
    names: &[u32],
    words: &[u32],
    lens: &[u32],
    returns: MaybeType,
    last: bool,
    out: &mut [u8],
    limit: usize,
    to: usize,
) -> Outcome
    requires { limit ≤ length out.old }
    ensures { ProjectsReturn l.now at ctx names.now words.now lens.now returns last out.old out.new limit to result }
{
    let flag = infer_context::operand(l, at);
    if flag == 0 {
        let function = ctx.function;
        return return_nothing(function, returns, last, out, limit, to);
    }
    let value = infer_context::first_part(l, at);
    return_value(
        l, value, ctx, names, words, lens, returns, last, out, limit, to,
    )
}
