// What types are made of besides types: a sub-byte type's words, a length, names.
ghost use Rattle.std.specs.Prelude.{ℕ, List};
ghost use Rattle.rules.specs.Reader.{many};
ghost use Rattle.rules.specs.ReadTypes.{sub_byte, wide, name, bits_inline};
ghost use Rattle.image_words.specs.Verdict.{section_words, Says};

use rules::bounds::{BITS_NAMES, SUB_BYTE_BITS};

// A sub-byte type behind its code: signed 0 or 1, bits 1 to 64.
#[tactic(auto, using(image_words::proofs::Says::rule_steps), unfolding(rules::specs::ReadTypes::sub_byte))]
pub fn check_sub(pool: &[u8], at: usize) -> Option<usize>
    ensures { Says sub_byte (section_words pool.now) at result }
{
    let bits = image_words::check_below(pool, at, 2)?;
    let next = image_words::check_word(pool, bits)?;
    match image_words::section_word(pool, bits) {
        1..=SUB_BYTE_BITS => Some(next),
        _ => None,
    }
}

// 64 bits in two words.
#[tactic(auto, using(image_words::proofs::Says::steps), unfolding(rules::specs::ReadTypes::wide))]
pub fn check_wide(pool: &[u8], at: usize) -> Option<usize>
    ensures { Says wide (section_words pool.now) at result }
{
    let high = image_words::check_word(pool, at)?;
    image_words::check_word(pool, high)
}

// A count, at most `most`, and so many names.
#[tactic(auto, using(image_words::proofs::Loops::turns))]
pub fn check_names(pool: &[u8], at: usize, names: u32, most: u32) -> Option<usize>
    ensures { Says (many most (name names)) (section_words pool.now) at result }
{
    let mut next = image_words::check_count(pool, at, most)?;
    for _ in 0..image_words::section_word(pool, at) {
        next = image_words::check_below(pool, next, names)?;
    }
    Some(next)
}

// An inline bits type behind its code: at most 62 names.
#[tactic(auto, using(image_words::proofs::Says::steps), unfolding(rules::specs::ReadTypes::bits_inline))]
pub fn check_bits(pool: &[u8], at: usize, names: u32) -> Option<usize>
    ensures { Says (bits_inline names) (section_words pool.now) at result }
{
    check_names(pool, at, names, BITS_NAMES)
}
