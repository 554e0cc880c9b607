// The places of an implementation's functions, found by one walk: the look-ups by name scan these.
ghost use Rattle.std.specs.Prelude.{List, ℕ, length, take};
ghost use Rattle.rules.specs.Syntax.{ImplFnDef};
ghost use Rattle.impl_functions.specs.Functions.{FunctionsHere, Placed};

use image_layout::Layout;
use rules::bounds::FUNCTION_ROWS;

// The places of the functions at `at`, from the table's start.
pub fn function_places(l: &Layout, at: usize) -> [usize; FUNCTION_ROWS]
    ensures { (fs : List ImplFnDef) (n : ℕ) → FunctionsHere l.now fs at n → Placed l.now fs (take (length fs) result) }
{
    let pool = l.pool;
    let count = crate::names::few(image_words::section_word(pool, at));
    let mut places = [0usize; FUNCTION_ROWS];
    let mut next = image_words::after(pool, at);
    for place in &mut places[..count] {
        *place = next;
        next = crate::places::after_function(l, next);
    }
    places
}
