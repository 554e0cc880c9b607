// A resolved type copied out of the pool.
#![tactic(auto)]

ghost use Rattle.std.specs.Prelude.{ℕ};
ghost use Rattle.rules.specs.Syntax.{ResolvedType, run};
ghost use Rattle.rules.specs.Good.{Stored};
ghost use Rattle.image_words.specs.Verdict.{section_words};
ghost use Rattle.image_words.specs.Stands.{Stands};
ghost use Rattle.image_layout.specs.Open.{pool_words};
ghost use Rattle.type_words.specs.Holds.{Holds};
ghost use Rattle.type_from_pool.specs.Held.{Types};

use image_layout::Layout;
use rules::bounds::TYPE_WORDS;
use type_poison::{Seen, pass};
use type_words::HeldType;

// A type, and the place behind it.
#[derive(Clone, Copy)]
pub struct Held {
    pub ty: HeldType,
    pub next: usize,
}

// The words from `at` up to `end`, at most 64. Each word is handed to `pass`, which tells nodes from other words.
fn copy(pool: &[u8], at: usize, end: usize) -> HeldType
    ensures { (names : ℕ) (t : ResolvedType) → Stands (section_words pool.now) (run t) at end → Stored names t → Holds names result t }
{
    let n = image_words::less(end, at);
    if TYPE_WORDS < n {
        return HeldType::empty();
    }
    let mut words = [0u32; TYPE_WORDS];
    let mut seen = Seen {
        poison: false,
        second: 1,
    };
    let mut before = 0;
    for i in 0..n {
        let word = image_words::section_word(pool, at + i);
        words[i] = word;
        seen = pass(seen, i, before, word);
        before = word;
    }
    HeldType {
        words,
        len: n,
        poison: seen.poison,
    }
}

pub fn hold_type(l: &Layout, at: usize) -> Held
    ensures { Types l.now.names.rows (pool_words l.now) at result }
{
    let pool = l.pool;
    let n = skip_types::skip_type(pool, at);
    Held {
        ty: copy(pool, at, n),
        next: n,
    }
}
