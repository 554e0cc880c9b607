// The answer, and the test at an expression's end.
ghost use Rattle.std.specs.Prelude.{◌≡◌, ◌∷◌, ℕ, ◌<◌};
ghost use Rattle.rules.specs.Syntax.{ResolvedType, run};
ghost use Rattle.rules.specs.Refusal.{err, with_name, with_detail};
ghost use Rattle.rules.specs.Infer.{FunctionContext, type_mismatch};
ghost use Rattle.type_words.specs.Holds.{Holds};
ghost use Rattle.infer_result.specs.Says.{Says};
ghost use Rattle.infer_result.specs.Clauses.{Ends};

use rules::ids::NameId;
use type_tests::same_type;
use type_words::{HeldType, MaybeType};

// Number 0 and the type; or the refusal's number, second name and detail: a word, for 20 the expected type, and a type.
#[derive(Clone, Copy)]
pub struct Inferred {
    pub number: u32,
    pub second: NameId,
    pub word: u32,
    pub wanted: HeldType,
    pub ty: HeldType,
}

pub fn accepted(ty: HeldType) -> Inferred
    ensures { (result.number ≡ 0) × (result.ty ≡ ty) }
{
    Inferred {
        number: 0,
        second: NameId::NONE,
        word: 0,
        wanted: HeldType::empty(),
        ty,
    }
}

// With a second name and no detail: 13, 14, 16, 17.
pub fn refused(number: u32, name: NameId) -> Inferred
    ensures { 0 < number → number < 20 → (names f : ℕ) → Says names f (err (with_name number f name.0)) result }
{
    Inferred {
        number,
        second: name,
        word: 0,
        wanted: HeldType::empty(),
        ty: HeldType::empty(),
    }
}

// 20: context, expected, actual.
pub fn type_mismatch(context: u32, expected: HeldType, actual: HeldType) -> Inferred
    ensures { (names : ℕ) (t u : ResolvedType) → Holds names expected t → Holds names actual u → (c : FunctionContext) → Says names c.function (type_mismatch c context t u) result }
{
    Inferred {
        number: 20,
        second: NameId::NONE,
        word: context,
        wanted: expected,
        ty: actual,
    }
}

// 21: operator, operand.
pub fn invalid_operator(operator: u32, operand: HeldType) -> Inferred
    ensures { (names : ℕ) (t : ResolvedType) → Holds names operand t → (f : ℕ) → Says names f (err (with_detail 21 f (operator ∷ run t))) result }
{
    Inferred {
        number: 21,
        second: NameId::NONE,
        word: operator,
        wanted: HeldType::empty(),
        ty: operand,
    }
}

// An expression's type is the expected one, or 20 in the caller's context.
pub fn ended(expected: MaybeType, context: u32, ty: HeldType) -> Inferred
    ensures { Ends expected context ty result }
{
    if expected.some {
        let wanted = expected.ty;
        if same_type(wanted, ty) {
            return accepted(ty);
        }
        return type_mismatch(context, wanted, ty);
    }
    accepted(ty)
}
