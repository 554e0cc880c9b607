// The names of functions, a trait's and an implementation's.
ghost use Rattle.std.specs.Prelude.{◌≡◌, List, map, ℕ, ◌≤◌, length, take};
ghost use Rattle.rules.specs.Syntax.{ImplFnDef, TraitFnDef};
ghost use Rattle.impl_functions.specs.Functions.{Placed, AllAskedHere};

use image_layout::Layout;
use rules::bounds::{FUNCTION_ROWS, FUNCTIONS};

// A count of functions, at most 64.
pub fn few(n: u32) -> usize
    ensures { (n ≤ 64 → result ≡ n) × (result ≤ 64) }
{
    n.min(FUNCTIONS) as usize
}

// The names of the trait functions at `at`, from the table's start.
pub fn function_names(l: &Layout, at: usize) -> [u32; FUNCTION_ROWS]
    ensures { (ts : List TraitFnDef) (n : ℕ) → AllAskedHere l.now ts at n → take (length ts) result ≡ map (λ t. t.name) ts }
{
    let pool = l.pool;
    let count = few(image_words::section_word(pool, at));
    let mut names = [0u32; FUNCTION_ROWS];
    let mut next = image_words::after(pool, at);
    for name in &mut names[..count] {
        *name = crate::places::name_at(l, next).0;
        next = crate::places::after_asked(l, next);
    }
    names
}

// The names of an implementation's functions at these places, from the table's start.
pub fn own_names(l: &Layout, places: &[usize]) -> [u32; FUNCTION_ROWS]
    requires { length places.now ≤ 64 }
    ensures { (fs : List ImplFnDef) → Placed l.now fs places.now → take (length places.now) result ≡ map (λ f. f.name) fs }
{
    let mut names = [0u32; FUNCTION_ROWS];
    for (i, &place) in places.iter().enumerate() {
        names[i] = crate::places::name_at(l, place).0;
    }
    names
}
