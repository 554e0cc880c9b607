// Words of a section of the image, which is a slice of it: what every reading of the image is made of. A check gives the place behind what it finds, or None.
#![tactic(auto)]

ghost use Rattle.std.specs.Prelude.{◌≡◌, suc, ◌+◌, ◌-◌, ◌<◌, length, get_or};
ghost use Rattle.rules.specs.Reader.{word, below};
ghost use Rattle.image_words.specs.Verdict.{section_words, Says};

// a - b, or 0
pub fn less(a: usize, b: usize) -> usize
    ensures { result ≡ a - b }
{
    a.saturating_sub(b)
}

// How many words a section has.
pub fn count(section: &[u8]) -> usize
    ensures { result ≡ length (section_words section.now) }
{
    section.len() / 4
}

// The word at a place of a section, or 0 past its end.
pub fn section_word(section: &[u8], at: usize) -> u32
    ensures { result ≡ get_or (section_words section.now) at 0 }
{
    if count(section) <= at {
        return 0;
    }
    words::whole_word(section, 4 * at)
}

// The place behind a word of a section.
pub fn after(section: &[u8], at: usize) -> usize
    ensures { at < length (section_words section.now) → result ≡ at + 1 }
{
    if at < count(section) { at + 1 } else { at }
}

// Any word.
#[tactic(auto, using(crate::proofs::Says::word_in, crate::proofs::Says::word_out))]
pub fn check_word(section: &[u8], at: usize) -> Option<usize>
    ensures { Says word (section_words section.now) at result }
{
    if at < count(section) {
        Some(at + 1)
    } else {
        None
    }
}

// A word under a limit.
#[tactic(auto, using(crate::proofs::Says::below_steps))]
pub fn check_below(section: &[u8], at: usize, limit: u32) -> Option<usize>
    ensures { Says (below limit) (section_words section.now) at result }
{
    let next = check_word(section, at)?;
    if section_word(section, at) < limit {
        Some(next)
    } else {
        None
    }
}

// A count, at most `most`.
#[tactic(auto, using(crate::proofs::Says::below_steps))]
pub fn check_count(section: &[u8], at: usize, most: u32) -> Option<usize>
    ensures { Says (below (suc most)) (section_words section.now) at result }
{
    let next = check_word(section, at)?;
    if section_word(section, at) <= most {
        Some(next)
    } else {
        None
    }
}
