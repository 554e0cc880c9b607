// Messages and generic aliases in the pool.
ghost use Rattle.rules.specs.ReadDefinitions.{message, generic_alias};
ghost use Rattle.image_words.specs.Verdict.{section_words, Says};

use pool_lists::{Form, Item};
use rules::bounds::{FIELDS, TYPE_PARAMS};

// At most 256 fields.
#[tactic(auto, using(image_words::proofs::Says::steps), unfolding(rules::specs::ReadDefinitions::message))]
pub fn check_message(pool: &[u8], at: usize, names: u32) -> Option<usize>
    ensures { Says (message names) (section_words pool.now) at result }
{
    pool_lists::check_items(Item::Named(Form::Resolved), pool, at, names, FIELDS)
}

// At most 8 type parameters, and the target type.
#[tactic(auto, using(image_words::proofs::Says::steps), unfolding(rules::specs::ReadDefinitions::generic_alias))]
pub fn check_generic_alias(pool: &[u8], at: usize, names: u32) -> Option<usize>
    ensures { Says (generic_alias names) (section_words pool.now) at result }
{
    let target = pool_types::parts::check_names(pool, at, names, TYPE_PARAMS)?;
    pool_type_exprs::check_type_expr(pool, target, names)
}
