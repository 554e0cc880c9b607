// Type parameters in view with their arguments: a lent table, a row for each.
#![tactic(auto)]

ghost use Rattle.std.specs.Prelude.{ℕ, ◌+◌, ◌*◌, ◌≤◌, ◌≡◌, List, length, take};
ghost use Rattle.rules.specs.Syntax.{ResolvedType, Param};
ghost use Rattle.rules.specs.Substitute.{find_param};
ghost use Rattle.type_words.specs.Holds.{Holds, MaybeHolds};
ghost use Rattle.subst_params.specs.Views.{Row, Views, Written};

use rules::ids::NameId;
use type_words::notes::{note_of, noted_type};
use type_words::{HeldType, MaybeType};

// A row: the parameter's name, a note of its argument (`type_words::notes`), and 64 words.
pub const ROW: usize = 66;

// The argument that a row holds.
fn argument(table: &[u32], at: usize) -> HeldType
    ensures { (names : ℕ) (p : Param ResolvedType) → Row names table.now at p → Holds names result p.ty }
{
    if image_words::less(table.len(), at) < ROW {
        return HeldType::empty();
    }
    noted_type(&table[at + 2..at + ROW], table[at + 1])
}

// The argument of the first type parameter of this name.
pub fn find_param(table: &[u32], x: NameId) -> MaybeType
    ensures { (names : ℕ) (ps : List (Param ResolvedType)) → Views names table.now 0 ps → MaybeHolds names result (find_param x.0 ps) }
{
    for at in (0..table.len()).step_by(ROW) {
        if NameId(table[at]) == x {
            return MaybeType::some(argument(table, at));
        }
    }
    MaybeType::none()
}

// A row: a type parameter and its argument. The words before it stay.
pub fn write_row(table: &mut [u32], at: usize, name: NameId, ty: HeldType)
    requires { at + 66 ≤ length table.old }
    ensures { Written table.old table.new at name.0 ty }
{
    table[at] = name.0;
    table[at + 1] = note_of(ty);
    table[at + 2..at + ROW].copy_from_slice(&ty.words);
}

// The first n rows of a table.
pub fn rows(table: &[u32], n: usize) -> &[u32]
    requires { 66 * n ≤ length table.now }
    ensures { result.now ≡ take (66 * n) table.now }
{
    let end = ROW * n;
    &table[..end]
}
