// One parameter and the return of a function against those that its signature asks for, as held types.
#![tactic(auto)]

pub mod mismatch;

ghost use Rattle.std.proofs.Math.Option.{Option};
ghost use Rattle.std.specs.Prelude.{ℕ};
ghost use Rattle.rules.specs.Syntax.{ResolvedType};
ghost use Rattle.type_words.specs.Holds.{MaybeHolds};
ghost use Rattle.project_outcome.specs.Outcomes.{Passes};
ghost use Rattle.check_types.specs.Params.{check_name};
ghost use Rattle.check_types.specs.Returns.{check_return};
ghost use Rattle.check_types.specs.Clauses.{ChecksType, ChecksParam};

use answers::answer::Outcome;
use rules::ids::NameId;
use type_words::{HeldType, MaybeType};

// The names of one parameter.
fn check_name(function: NameId, wanted: NameId, found: NameId) -> Outcome
    ensures { Passes (check_name function.0 wanted.0 found.0) result }
{
    if found.0 != wanted.0 {
        return answers::answer::refused(mismatch::wrong_word(function, 2, wanted.0, found.0));
    }
    answers::answer::accepted(0, 0)
}

// Its types.
fn check_type(function: NameId, wanted: NameId, expected: HeldType, actual: HeldType) -> Outcome
    ensures { ChecksType function wanted expected actual result }
{
    if !type_tests::same_type(actual, expected) {
        return answers::answer::refused(mismatch::wrong_type(function, wanted, expected, actual));
    }
    answers::answer::accepted(0, 0)
}

// One parameter: the names, then the types.
pub fn check_param(
    function: NameId,
    wanted: NameId,
    expected: HeldType,
    found: NameId,
    actual: HeldType,
) -> Outcome
    ensures { ChecksParam function wanted expected found actual result }
{
    let name = check_name(function, wanted, found);
    let ty = check_type(function, wanted, expected, actual);
    project_outcome::first_refusal(name, ty)
}

// The returns, of which the actual one may be Void.
pub fn check_return(function: NameId, expected: MaybeType, actual: MaybeType) -> Outcome
    ensures { (rows : ℕ) (a e : Option ResolvedType) → MaybeHolds rows actual a → MaybeHolds rows expected e → Passes (check_return function.0 a e) result }
{
    let found = type_tests::normalize_return(actual);
    if !type_tests::same_return(found, expected) {
        return answers::answer::refused(mismatch::wrong_return(function, expected, found));
    }
    answers::answer::accepted(0, 0)
}
