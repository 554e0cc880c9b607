// Whether a type expression stands in the pool, as the rules read it: the place behind it, or None.
#![tactic(auto)]

ghost use Rattle.rules.specs.Reader.{fail};
ghost use Rattle.rules.specs.ReadTypes.{type_expr_node, type_expr_tree, type_expr};
ghost use Rattle.rules.specs.declared.kinds.TypeKind.TheVariants.{Qualified};
ghost use Rattle.image_words.specs.Verdict.{section_words, Says};

use pool_types::parts;
use rules::bounds::{TYPE_NESTING, TYPE_WORDS};
use rules::kinds::TypeKind;

// A namespace and a name.
#[tactic(auto, using(image_words::proofs::Says::steps), unfolding(rules::specs::ReadTypes::type_expr_node))]
pub fn check_qualified(pool: &[u8], at: usize, names: u32) -> Option<usize>
    ensures { Says (type_expr_node names fail Qualified 49) (section_words pool.now) at result }
{
    let name = image_words::check_below(pool, at, names)?;
    image_words::check_below(pool, name, names)
}

// A type expression, at most `depth` deep.
#[tactic(auto, using(image_words::proofs::Trees::type_expr_steps, image_words::proofs::Says::steps), unfolding(rules::specs::ReadTypes::type_expr_node))]
pub fn check_type_expr_tree(pool: &[u8], at: usize, names: u32, depth: u32) -> Option<usize>
    ensures { Says (type_expr_tree names depth) (section_words pool.now) at result }
{
    let d = depth.checked_sub(1)?;
    let n = image_words::check_word(pool, at)?;
    match codes::type_kind(image_words::section_word(pool, at)) {
        TypeKind::Plain => Some(n),
        TypeKind::Sub => parts::check_sub(pool, n),
        TypeKind::Bits => parts::check_bits(pool, n, names),
        TypeKind::Named => image_words::check_below(pool, n, names),
        TypeKind::Qualified => check_qualified(pool, n, names),
        TypeKind::Generic => {
            let argument = image_words::check_below(pool, n, names)?;
            check_type_expr_tree(pool, argument, names, d)
        }
        TypeKind::One => check_type_expr_tree(pool, n, names, d),
        TypeKind::Fixed => check_type_expr_tree(pool, parts::check_wide(pool, n)?, names, d),
        TypeKind::Two => {
            let second = check_type_expr_tree(pool, n, names, d)?;
            check_type_expr_tree(pool, second, names, d)
        }
        TypeKind::Unknown => None,
    }
}

// A type expression of at most 64 words.
#[tactic(auto, using(image_words::proofs::Says::sized_steps), unfolding(rules::specs::ReadTypes::type_expr))]
pub fn check_type_expr(pool: &[u8], at: usize, names: u32) -> Option<usize>
    ensures { Says (type_expr names) (section_words pool.now) at result }
{
    let next = check_type_expr_tree(pool, at, names, TYPE_NESTING)?;
    if next.saturating_sub(at) <= TYPE_WORDS {
        Some(next)
    } else {
        None
    }
}
