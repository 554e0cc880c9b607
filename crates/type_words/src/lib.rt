// A resolved type, held as its words in prefix order with their count, and whether poison occurs in it; the few functions
// that make one. Nothing is said of the words past the count.
#![tactic(auto)]

pub mod lent;
pub mod notes;

ghost use Rattle.std.specs.Prelude.{◌≡◌, true, false, [], ◌∷◌, ◌≤◌, length, get_or, eqb};
ghost use Rattle.rules.specs.Words.{NONE};
ghost use Rattle.type_words.specs.Runs.{held_run, Made};

use rules::bounds::TYPE_WORDS;
use rules::ids::TypeId;
use rules::tags::TypeTag;

#[derive(Clone, Copy)]
pub struct HeldType {
    pub words: [u32; TYPE_WORDS],
    pub len: usize,
    pub poison: bool,
}

// A type or none.
#[derive(Clone, Copy)]
pub struct MaybeType {
    pub some: bool,
    pub ty: HeldType,
}

impl HeldType {
    // How many words the run has.
    pub fn count(self) -> usize
        ensures { (result ≡ length (held_run self)) × (result ≤ 64) }
    {
        self.len.min(TYPE_WORDS)
    }

    // A word of the run, 0 past its end.
    pub fn word(self, i: usize) -> u32
        ensures { result ≡ get_or (held_run self) i 0 }
    {
        let n = self.count();
        if i < n { self.words[i] } else { 0 }
    }

    // These few words.
    pub(crate) fn of(run: &[u32], poison: bool) -> HeldType
        requires { length run.now ≤ 64 }
        ensures { Made result run.now poison }
    {
        let len = run.len();
        let mut words = [0u32; TYPE_WORDS];
        words[..len].copy_from_slice(run);
        HeldType { words, len, poison }
    }

    pub fn empty() -> HeldType
        ensures { Made result [] false }
    {
        HeldType::of(&[], false)
    }

    // A primitive or a semantic type.
    pub fn plain(code: u32) -> HeldType
        ensures { Made result (code ∷ []) false }
    {
        HeldType::of(&[code], false)
    }

    pub fn named(id: TypeId) -> HeldType
        ensures { Made result (48 ∷ id.0 ∷ []) (eqb id.0 NONE) }
    {
        HeldType::of(&[TypeTag::NAMED, id.0], id == TypeId::POISON)
    }
}

impl MaybeType {
    pub fn none() -> MaybeType
        ensures { result.some ≡ false }
    {
        MaybeType {
            some: false,
            ty: HeldType::empty(),
        }
    }

    pub fn some(ty: HeldType) -> MaybeType
        ensures { (result.some ≡ true) × (result.ty ≡ ty) }
    {
        MaybeType { some: true, ty }
    }
}
