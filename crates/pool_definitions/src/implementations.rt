// Implementations in the pool.
ghost use Rattle.rules.specs.Reader.{many};
ghost use Rattle.rules.specs.ReadDefinitions.{impl_function, implementation};
ghost use Rattle.image_words.specs.Verdict.{section_words, Says};

use pool_lists::{Form, Item};
use rules::bounds::{FUNCTIONS, PARAMS, TYPE_PARAMS};

// A name, at most 32 parameters, a return type or none, and the body.
#[tactic(auto, using(image_words::proofs::Says::steps), unfolding(rules::specs::ReadDefinitions::impl_function))]
pub fn check_impl_function(pool: &[u8], at: usize, names: u32, strings: u32) -> Option<usize>
    ensures { Says (impl_function names strings) (section_words pool.now) at result }
{
    let params = image_words::check_below(pool, at, names)?;
    let ret = pool_lists::check_items(Item::Named(Form::Resolved), pool, params, names, PARAMS)?;
    let body = pool_types::resolved::check_maybe_type(pool, ret, names)?;
    pool_bodies::bodies::check_body(pool, body, names, strings)
}

// At most 64 functions.
#[tactic(auto, using(image_words::proofs::Loops::turns))]
pub fn check_impl_functions(pool: &[u8], at: usize, names: u32, strings: u32) -> Option<usize>
    ensures { Says (many 64 (impl_function names strings)) (section_words pool.now) at result }
{
    let mut next = image_words::check_count(pool, at, FUNCTIONS)?;
    for _ in 0..image_words::section_word(pool, at) {
        next = check_impl_function(pool, next, names, strings)?;
    }
    Some(next)
}

// The trait's row and name, the target type, at most 8 type arguments, and the functions.
#[tactic(auto, using(image_words::proofs::Says::steps), unfolding(rules::specs::ReadDefinitions::implementation))]
pub fn check_implementation(pool: &[u8], at: usize, names: u32, strings: u32) -> Option<usize>
    ensures { Says (implementation names strings) (section_words pool.now) at result }
{
    let name = image_words::check_word(pool, at)?;
    let target = image_words::check_below(pool, name, names)?;
    let type_args = pool_types::resolved::check_type(pool, target, names)?;
    let functions = pool_lists::check_items(Item::Type, pool, type_args, names, TYPE_PARAMS)?;
    check_impl_functions(pool, functions, names, strings)
}
