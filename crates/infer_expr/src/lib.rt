// Expressions are typed by recursion while the allowed nesting falls.
#![tactic(auto)]

ghost use Rattle.infer_expr.specs.Infers.{Infers};

use image_layout::Layout;
use infer_context::Context;
use infer_leaves::infer_leaf;
use infer_result::inferred::Inferred;
use rules::kinds::ExprKind;
use type_words::MaybeType;

// The contexts of an operand.
const BINARY_EXPRESSION: u32 = 6;

const UNARY_EXPRESSION: u32 = 7;

// The type of the expression at `at` under an expected type or none; a mismatch is refused in the caller's context.
pub fn infer_expr(
    l: &Layout,
    ctx: Context,
    names: &[u32],
    words: &[u32],
    lens: &[u32],
    at: usize,
    nest: u32,
    expected: MaybeType,
    context: u32,
) -> Inferred
    ensures { Infers l.now names.now words.now lens.now ctx at nest expected context result }
{
    // No expression is nested 0 deep: what is answered then means nothing.
    if nest == 0 {
        return infer_leaf(l, ctx, names, words, lens, at, expected, context);
    }
    let inner = nest - 1;
    // One place for the type that an operand is typed under and one for what came of it: each more would be stack at every level.
    let mut under = expected;
    let k = infer_context::kind_at(l, at);
    match k {
        // The left operand under the hint, the right under the left's type.
        ExprKind::Binary => {
            let op = infer_context::operand(l, at);
            let left = infer_context::first_part(l, at);
            let right = infer_context::skip_expr(l, left, inner);
            let hint = infer_context::binary_hint(
                l, ctx, names, words, lens, op, left, right, expected,
            );
            under = hint;
            let mut a = infer_expr(
                l,
                ctx,
                names,
                words,
                lens,
                left,
                inner,
                under,
                BINARY_EXPRESSION,
            );
            if a.number == 0 {
                let ty = a.ty;
                under = MaybeType { some: true, ty };
                a = infer_expr(
                    l,
                    ctx,
                    names,
                    words,
                    lens,
                    right,
                    inner,
                    under,
                    BINARY_EXPRESSION,
                );
                if a.number == 0 {
                    a = infer_result::operators::end_binary(op, under.ty, expected, context);
                }
            }
            a
        }
        // The value under the expected type.
        ExprKind::Unary => {
            let op = infer_context::operand(l, at);
            let value = infer_context::first_part(l, at);
            let mut a = infer_expr(
                l,
                ctx,
                names,
                words,
                lens,
                value,
                inner,
                under,
                UNARY_EXPRESSION,
            );
            if a.number == 0 {
                let ty = a.ty;
                under = MaybeType { some: true, ty };
                a = infer_result::operators::end_unary(op, under.ty, expected, context);
            }
            a
        }
        _ => infer_leaf(l, ctx, names, words, lens, at, expected, context),
    }
}
