// Traits in the pool.
#![tactic(auto)]

ghost use Rattle.std.specs.Prelude.{◌≡◌};
ghost use Rattle.rules.specs.Words.{member};
ghost use Rattle.rules.specs.ReadDefinitions.{trait_return, trait_function, trait};
ghost use Rattle.image_words.specs.Verdict.{section_words, Says};
ghost use Rattle.pool_traits.specs.Different.{different_functions};

use pool_lists::{Form, Item};
use rules::bounds::{FUNCTION_ROWS, FUNCTIONS, PARAMS, TYPE_PARAMS};
use rules::ids::NameId;

// 0 no return, 1 a resolved type, 2 a type expression.
#[tactic(auto, using(crate::proofs::TraitLoop::return_steps))]
pub fn check_trait_return(pool: &[u8], at: usize, names: u32) -> Option<usize>
    ensures { Says (trait_return names) (section_words pool.now) at result }
{
    let next = image_words::check_below(pool, at, 3)?;
    match image_words::section_word(pool, at) {
        0 => Some(next),
        1 => pool_types::resolved::check_type(pool, next, names),
        _ => pool_type_exprs::check_type_expr(pool, next, names),
    }
}

// A name, at most 32 parameters, and the return.
#[tactic(auto, using(image_words::proofs::Says::steps), unfolding(rules::specs::ReadDefinitions::trait_function))]
pub fn check_trait_function(pool: &[u8], at: usize, names: u32) -> Option<usize>
    ensures { Says (trait_function names) (section_words pool.now) at result }
{
    let params = image_words::check_below(pool, at, names)?;
    let ret = pool_lists::check_items(Item::Named(Form::Expression), pool, params, names, PARAMS)?;
    check_trait_return(pool, ret, names)
}

// Whether a number is in a list.
pub fn listed(xs: &[u32], x: NameId) -> bool
    ensures { result ≡ member x.0 xs.now }
{
    xs.contains(&x.0)
}

// At most 64 functions, no two of one name.
#[tactic(auto, using(crate::proofs::TraitLoop::function_steps))]
pub fn check_trait_functions(pool: &[u8], at: usize, names: u32) -> Option<usize>
    ensures { Says (different_functions names) (section_words pool.now) at result }
{
    let mut next = image_words::check_count(pool, at, FUNCTIONS)?;
    let mut seen = [0u32; FUNCTION_ROWS];
    for i in 0..image_words::section_word(pool, at) as usize {
        let name = image_words::section_word(pool, next);
        next = check_trait_function(pool, next, names)?;
        if listed(&seen[..i], NameId(name)) {
            return None;
        }
        seen[i] = name;
    }
    Some(next)
}

// A name, at most 8 type parameters, and the functions.
pub fn check_trait(pool: &[u8], at: usize, names: u32) -> Option<usize>
    ensures { Says (trait names) (section_words pool.now) at result }
{
    let type_params = image_words::check_below(pool, at, names)?;
    let functions = pool_types::parts::check_names(pool, type_params, names, TYPE_PARAMS)?;
    check_trait_functions(pool, functions, names)
}
