// Resolved types in the pool.
ghost use Rattle.rules.specs.Reader.{maybe};
ghost use Rattle.rules.specs.ReadTypes.{type_tree, resolved_type};
ghost use Rattle.image_words.specs.Verdict.{section_words, Says};

use crate::parts;
use rules::bounds::{TYPE_NESTING, TYPE_WORDS};
use rules::kinds::TypeKind;

// A resolved type, at most `depth` deep.
#[tactic(auto, using(image_words::proofs::Trees::type_steps, image_words::proofs::Says::steps), unfolding(rules::specs::ReadTypes::type_node))]
pub fn check_tree(pool: &[u8], at: usize, names: u32, depth: u32) -> Option<usize>
    ensures { Says (type_tree names depth) (section_words pool.now) at result }
{
    let d = depth.checked_sub(1)?;
    let n = image_words::check_word(pool, at)?;
    match codes::type_kind(image_words::section_word(pool, at)) {
        TypeKind::Plain => Some(n),
        TypeKind::Sub => parts::check_sub(pool, n),
        TypeKind::Bits => parts::check_bits(pool, n, names),
        TypeKind::Named => image_words::check_word(pool, n),
        TypeKind::One => check_tree(pool, n, names, d),
        TypeKind::Fixed => check_tree(pool, parts::check_wide(pool, n)?, names, d),
        TypeKind::Two => {
            let second = check_tree(pool, n, names, d)?;
            check_tree(pool, second, names, d)
        }
        TypeKind::Qualified | TypeKind::Generic | TypeKind::Unknown => None,
    }
}

// A resolved type of at most 64 words.
#[tactic(auto, using(image_words::proofs::Says::sized_steps), unfolding(rules::specs::ReadTypes::resolved_type))]
pub fn check_type(pool: &[u8], at: usize, names: u32) -> Option<usize>
    ensures { Says (resolved_type names) (section_words pool.now) at result }
{
    let next = check_tree(pool, at, names, TYPE_NESTING)?;
    if next.saturating_sub(at) <= TYPE_WORDS {
        Some(next)
    } else {
        None
    }
}

// 0, or 1 and a resolved type.
#[tactic(auto, using(image_words::proofs::Says::maybe_steps))]
pub fn check_maybe_type(pool: &[u8], at: usize, names: u32) -> Option<usize>
    ensures { Says (maybe (resolved_type names)) (section_words pool.now) at result }
{
    let next = image_words::check_below(pool, at, 2)?;
    if image_words::section_word(pool, at) == 0 {
        Some(next)
    } else {
        check_type(pool, next, names)
    }
}
