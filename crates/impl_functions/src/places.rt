// The names of functions in the pool, and the places behind functions.
ghost use Rattle.std.specs.Prelude.{◌≡◌, ℕ};
ghost use Rattle.rules.specs.Syntax.{ImplFnDef, TraitFnDef};
ghost use Rattle.impl_functions.specs.Functions.{FunctionHere, AskedHere};

use image_layout::Layout;
use rules::ids::NameId;

// The name that starts a function, a trait's or an implementation's.
pub fn name_at(l: &Layout, at: usize) -> NameId
    ensures own { (f : ImplFnDef) (n : ℕ) → FunctionHere l.now f at n → result.0 ≡ f.name }
    ensures asked { (f : TraitFnDef) (n : ℕ) → AskedHere l.now f at n → result.0 ≡ f.name }
{
    let pool = l.pool;
    NameId(image_words::section_word(pool, at))
}

// The place behind an implementation's function.
pub fn after_function(l: &Layout, at: usize) -> usize
    ensures { (f : ImplFnDef) (n : ℕ) → FunctionHere l.now f at n → result ≡ n }
{
    let pool = l.pool;
    skip_functions::functions::skip_function(pool, at)
}

// The place behind a trait's function.
pub fn after_asked(l: &Layout, at: usize) -> usize
    ensures { (f : TraitFnDef) (n : ℕ) → AskedHere l.now f at n → result ≡ n }
{
    let pool = l.pool;
    skip_functions::functions::skip_trait_function(pool, at)
}
