// The locals in view: a lent table of 64 rows. A local's type has 64 words; its name stands beside, and in `lens` a note of
// its type (`type_words::notes`).
#![tactic(auto)]

ghost use Rattle.std.specs.Prelude.{ℕ, ◌+◌, ◌<◌, ◌≤◌, ◌≡◌, ◌≢◌, List, length, IsNone, IfSome};
ghost use Rattle.std.specs.List.{AllWithin, HoldsAt};
ghost use Rattle.rules.specs.Syntax.{ResolvedType, Param};
ghost use Rattle.rules.specs.Infer.{find_last};
ghost use Rattle.type_words.specs.Holds.{Holds, MaybeHolds};
ghost use Rattle.locals.specs.Rows.{Row, Rows};
ghost use Rattle.locals.specs.Adds.{Filled};
ghost use Rattle.locals.specs.Clauses.{FindsLocal, AddsLocal};

use rules::bounds::{LOCAL_ROWS, TYPE_WORDS};
use rules::ids::NameId;
use type_words::notes::{note_of, noted_type};
use type_words::{HeldType, MaybeType};

// The words of all rows.
pub const LOCAL_WORDS: usize = LOCAL_ROWS * TYPE_WORDS;

// The last place of this name.
fn last_place(names: &[u32], x: NameId) -> Option<usize>
    ensures none { IsNone result → AllWithin (λ name. name ≢ x.0) names.now 0 (length names.now) }
    ensures some { IfSome result (λ i. (i < length names.now) × HoldsAt (λ name. name ≡ x.0) names.now i × AllWithin (λ name. name ≢ x.0) names.now (i + 1) (length names.now)) }
{
    names.iter().rposition(|&name| NameId(name) == x)
}

// The row of the last local of this name, or the count where there is none.
pub fn find_local(names: &[u32], count: usize, x: NameId) -> usize
    ensures { FindsLocal names.now count x result }
{
    if names.len() < count {
        return count;
    }
    last_place(&names[..count], x).unwrap_or(count)
}

// The type that a row holds.
pub fn local_type(words: &[u32], lens: &[u32], i: usize) -> HeldType
    ensures { (rows : ℕ) (names : List ℕ) (p : Param ResolvedType) → Row rows names words.now lens.now i p → Holds rows result p.ty }
{
    if (LOCAL_ROWS <= i) | (lens.len() <= i) {
        return HeldType::empty();
    }
    let start = TYPE_WORDS * i;
    if words.len() < start + TYPE_WORDS {
        return HeldType::empty();
    }
    noted_type(&words[start..start + TYPE_WORDS], lens[i])
}

// The type of the last local of this name.
pub fn find_last(names: &[u32], words: &[u32], lens: &[u32], count: usize, x: NameId) -> MaybeType
    ensures { (rows : ℕ) (ps : List (Param ResolvedType)) → Rows rows names.now words.now lens.now count 0 ps → MaybeHolds rows result (find_last x.0 ps) }
{
    let i = find_local(names, count, x);
    if i < count {
        return MaybeType::some(local_type(words, lens, i));
    }
    MaybeType::none()
}

// The words of row i; those of the rows before it stay.
fn fill_row(words: &mut [u32], i: usize, ty: HeldType)
    requires { (i < 64) × (4096 ≤ length words.old) }
    ensures { Filled words.old words.new i ty }
{
    let row = TYPE_WORDS * i;
    words[row..row + TYPE_WORDS].copy_from_slice(&ty.words);
}

// A local as row i, behind those before it.
pub fn add_local(
    names: &mut [u32],
    words: &mut [u32],
    lens: &mut [u32],
    i: usize,
    name: NameId,
    ty: HeldType,
)
    requires { (i < 64) × (64 ≤ length names.old) × (4096 ≤ length words.old) × (64 ≤ length lens.old) }
    ensures { AddsLocal names.old names.new words.old words.new lens.old lens.new i name ty }
{
    names[i] = name.0;
    lens[i] = note_of(ty);
    fill_row(words, i, ty);
}
