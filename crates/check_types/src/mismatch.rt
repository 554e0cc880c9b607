// 6: what a signature asks for, and what the function has.
ghost use Rattle.std.specs.Prelude.{◌≡◌, [], ◌∷◌, ℕ, ◌≤◌, length};
ghost use Rattle.std.proofs.Math.Option.{Option};
ghost use Rattle.rules.specs.Syntax.{ResolvedType};
ghost use Rattle.rules.specs.Refusal.{with_detail};
ghost use Rattle.rules.specs.Types.{return_words};
ghost use Rattle.type_words.specs.Runs.{held_run};
ghost use Rattle.type_words.specs.Holds.{MaybeHolds};
ghost use Rattle.answers.specs.Refusals.{detail_of, refusal_of, adding};
ghost use Rattle.check_types.specs.Details.{type_detail};
ghost use Rattle.check_types.specs.Clauses.{WrongReturn};

use answers::refusal::Refusal;
use rules::ids::NameId;
use type_words::{HeldType, MaybeType};

// Two words: counts, or names.
pub fn wrong_word(function: NameId, kind: u32, expected: u32, found: u32) -> Refusal
    ensures { refusal_of result ≡ with_detail 6 function.0 (kind ∷ expected ∷ found ∷ []) }
{
    Refusal::at(6, function)
        .word(kind)
        .word(expected)
        .word(found)
}

// Two types, of the parameter that has this name.
pub fn wrong_type(function: NameId, name: NameId, expected: HeldType, found: HeldType) -> Refusal
    ensures { refusal_of result ≡ type_detail function.0 name.0 (held_run expected) (held_run found) }
{
    Refusal::named(6, function, name)
        .word(3)
        .run(expected)
        .run(found)
}

// A return's words behind the others.
fn add_return(r: Refusal, t: MaybeType) -> Refusal
    ensures { length (detail_of r) ≤ 66 → (names : ℕ) (o : Option ResolvedType) → MaybeHolds names t o → refusal_of result ≡ adding (refusal_of r) (return_words o) }
{
    if t.some {
        let ty = t.ty;
        return r.word(1).run(ty);
    }
    r.word(0)
}

// Two returns.
pub fn wrong_return(function: NameId, expected: MaybeType, found: MaybeType) -> Refusal
    ensures { WrongReturn function expected found result }
{
    add_return(
        add_return(Refusal::at(6, function).word(4), expected),
        found,
    )
}
