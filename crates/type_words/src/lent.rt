// Runs that grow where they lie: the words of a held type, lent with their count, so that growing costs no copy on the stack.
// What the type says of poison stays with the lender.
ghost use Rattle.std.specs.Prelude.{Bool, [], ◌∷◌, ◌++◌, ◌+◌, ◌<◌, ◌≤◌, ◌≡◌, length, take};
ghost use Rattle.type_words.specs.Runs.{held_run, Grows};
ghost use Rattle.type_words.specs.Lent.{lent};

use crate::HeldType;
use rules::bounds::TYPE_WORDS;
use rules::tags::TypeTag;

// A word before the run, and the run's count then; none where it would pass 64 words.
pub fn push_front(word: u32, words: &mut [u32; TYPE_WORDS], n: usize) -> Option<usize>
    requires { length words.old ≡ 64 }
    ensures { ((p : Bool) → Grows (word ∷ take n words.old) (lent result words.new p)) × (length words.new ≡ 64) }
{
    if TYPE_WORDS <= n {
        return None;
    }
    // Word by word: `copy_within` takes three times as long at eight words.
    let mut carry = word;
    for i in 0..n + 1 {
        let next = words[i];
        words[i] = carry;
        carry = next;
    }
    Some(n + 1)
}

// A fixed array's three words before the run.
pub fn push_fixed(low: u32, high: u32, words: &mut [u32; TYPE_WORDS], n: usize) -> Option<usize>
    requires { length words.old ≡ 64 }
    ensures { ((p : Bool) → Grows (66 ∷ low ∷ high ∷ take n words.old) (lent result words.new p)) × (length words.new ≡ 64) }
{
    let f = push_front(high, words, n)?;
    let g = push_front(low, words, f)?;
    push_front(TypeTag::FIXED_ARRAY, words, g)
}

// A word behind the first n, where there is room for it.
pub fn put_at(words: &mut [u32; TYPE_WORDS], n: usize, word: u32)
    requires { length words.old ≡ 64 }
    ensures { (length words.new ≡ 64) × (take n words.new ≡ take n words.old) × (n < 64 → take (n + 1) words.new ≡ take n words.old ++ (word ∷ [])) }
{
    if n < TYPE_WORDS {
        words[n] = word;
    }
}

// Another run behind the first n words.
pub fn push_back(words: &mut [u32; TYPE_WORDS], n: usize, other: HeldType) -> Option<usize>
    requires { (length words.old ≡ 64) × (n ≤ 64) }
    ensures { ((p : Bool) → Grows (take n words.old ++ held_run other) (lent result words.new p)) × (length words.new ≡ 64) }
{
    let m = other.count();
    if TYPE_WORDS - n < m {
        return None;
    }
    words[n..n + m].copy_from_slice(&other.words[..m]);
    Some(n + m)
}
