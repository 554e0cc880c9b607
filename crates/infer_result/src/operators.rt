// Operators: what their operands may be, and the end of an operation.
ghost use Rattle.std.specs.Prelude.{◌≡◌, cond, ℕ, ◌+◌, ◌<◌};
ghost use Rattle.rules.specs.Syntax.{ResolvedType};
ghost use Rattle.rules.specs.Types.{BOOL};
ghost use Rattle.rules.specs.Infer.{is_arithmetic, operand_allowed, unary_allowed};
ghost use Rattle.type_words.specs.Holds.{Holds, Each};
ghost use Rattle.infer_result.specs.Clauses.{EndsBinary, EndsUnary};

use crate::inferred::{Inferred, ended, invalid_operator};
use rules::ids::PrimitiveType;
use type_tests::{is_equality_type, is_numeric, is_signed_numeric, same_type};
use type_words::{HeldType, MaybeType};

// == and != take equality types, the others numeric ones.
#[tactic(auto, unfolding(rules::specs::Infer::operand_allowed, rules::specs::Words::within))]
pub fn operand_allowed(op: u32, ty: HeldType) -> bool
    ensures { Each ty (λ t. result ≡ operand_allowed op t) }
{
    match op {
        4 | 5 => is_equality_type(ty),
        _ => is_numeric(ty),
    }
}

// Neg wants signed numeric, Not wants bool.
pub fn unary_allowed(op: u32, ty: HeldType) -> bool
    ensures { Each ty (λ t. result ≡ unary_allowed op t) }
{
    if op == 0 {
        return is_signed_numeric(ty);
    }
    same_type(ty, HeldType::plain(PrimitiveType::BOOL))
}

// Arithmetic gives its operands' type, a comparison bool.
pub fn result_type(op: u32, ty: HeldType) -> HeldType
    ensures { (names : ℕ) (t : ResolvedType) → Holds names ty t → Holds names result (cond (is_arithmetic op) t BOOL) }
{
    if op < 4 {
        return ty;
    }
    HeldType::plain(PrimitiveType::BOOL)
}

// A unary operator's number in a refusal.
fn unary_number(op: u32) -> u32
    ensures { op < 2 → result ≡ 10 + op }
{
    if op == 0 { 10 } else { 11 }
}

// Once both operands are typed, from the left's type.
pub fn end_binary(op: u32, ty: HeldType, expected: MaybeType, context: u32) -> Inferred
    ensures { EndsBinary op ty expected context result }
{
    if operand_allowed(op, ty) {
        return ended(expected, context, result_type(op, ty));
    }
    invalid_operator(op, ty)
}

pub fn end_unary(op: u32, ty: HeldType, expected: MaybeType, context: u32) -> Inferred
    ensures { EndsUnary op ty expected context result }
{
    if unary_allowed(op, ty) {
        return ended(expected, context, ty);
    }
    invalid_operator(unary_number(op), ty)
}
