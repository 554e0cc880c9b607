// A type at rest in a table: beside its words a row notes their count, and 128 more where poison occurs in the type, which
// is above every count.
ghost use Rattle.std.specs.Prelude.{ℕ, ◌%◌, ◌≡◌, length, leb};
ghost use Rattle.rules.specs.Syntax.{ResolvedType};
ghost use Rattle.type_words.specs.Runs.{held_run};
ghost use Rattle.type_words.specs.Notes.{note};
ghost use Rattle.type_words.specs.Rests.{Rests};
ghost use Rattle.type_words.specs.Holds.{Holds};

use crate::HeldType;
use rules::bounds::TYPE_WORDS;

pub fn note_of(ty: HeldType) -> u32
    ensures { result ≡ note (length (held_run ty)) ty.poison }
{
    let n = ty.count() as u32;
    if ty.poison { n + 128 } else { n }
}

pub fn noted_count(word: u32) -> usize
    ensures { result ≡ word % 128 }
{
    (word % 128) as usize
}

pub fn noted_poison(word: u32) -> bool
    ensures { result ≡ leb 128 word }
{
    128 <= word
}

// The type that rests in these words with this note.
pub fn noted_type(words: &[u32], note: u32) -> HeldType
    ensures { (names : ℕ) (t : ResolvedType) → Rests names words.now note t → Holds names result t }
{
    let n = noted_count(note);
    if TYPE_WORDS.min(words.len()) < n {
        return HeldType::empty();
    }
    HeldType::of(&words[..n], noted_poison(note))
}
