// Assignments to a field of SelfRef.
ghost use Rattle.std.specs.Prelude.{ℕ, ◌≤◌, length};
ghost use Rattle.rules.specs.Infer.{place};
ghost use Rattle.rules.specs.Bodies.{assigned_field};
ghost use Rattle.infer_context.specs.Stood.{AtExpr};
ghost use Rattle.project_statement.specs.Targets.{FieldAgrees};
ghost use Rattle.project_statement.specs.Clauses.{ProjectsAssign};

use crate::value::project_value;
use answers::answer::Outcome;
use answers::refusal::Refusal;
use image_layout::Layout;
use image_words::after;
use infer_context::Context;
use rules::bounds::NESTING;
use rules::ids::NameId;
use rules::tags::{ExprTag, StatementTag};

// The context of its value.
const FIELD_ASSIGNMENT: u32 = 5;

// The field that a target names; None where it is no field of SelfRef.
pub fn assigned_field(l: &Layout, at: usize) -> Option<NameId>
    ensures { (f nest : ℕ) → AtExpr l.now nest at (λ e n. FieldAgrees f (assigned_field f (place e)) result) }
{
    let pool = l.pool;
    if image_words::section_word(pool, at) != ExprTag::FIELD_ACCESS {
        return None;
    }
    if image_words::section_word(pool, infer_context::first_part(l, at)) != ExprTag::SELF_REF {
        return None;
    }
    Some(NameId(infer_context::operand(l, at)))
}

// An assignment to a field of SelfRef.
pub fn project_assign(
    l: &Layout,
    at: usize,
    ctx: Context,
    names: &[u32],
    words: &[u32],
    lens: &[u32],
    out: &mut [u8],
    limit: usize,
    to: usize,
) -> Outcome
    requires { limit ≤ length out.old }
    ensures { ProjectsAssign l.now at ctx names.now words.now lens.now out.old out.new limit to result }
{
    let pool = l.pool;
    let function = ctx.function;
    let target = after(pool, at);
    let Some(field) = assigned_field(l, target) else {
        return answers::answer::refused(Refusal::at(19, function));
    };
    let ty = message_fields::field_type(l, ctx.fields, field);
    if !ty.some {
        return answers::answer::refused(Refusal::named(17, function, field));
    }
    let a = write_words::put_two(out, limit, to, StatementTag::ASSIGN, field.0);
    let value = infer_context::skip_expr(l, target, NESTING);
    project_value(
        l,
        ctx,
        names,
        words,
        lens,
        value,
        ty,
        FIELD_ASSIGNMENT,
        out,
        limit,
        a,
    )
}
