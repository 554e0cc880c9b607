// Where an implementation's parts stand in the pool.
ghost use Rattle.std.specs.Prelude.{◌≡◌, List, ℕ};
ghost use Rattle.rules.specs.Syntax.{ResolvedType};
ghost use Rattle.image_words.specs.Gives.{Counted};
ghost use Rattle.image_layout.specs.Open.{pool_words};
ghost use Rattle.pool_types.specs.TypeAt.{TypeStands};

use image_layout::Layout;

// Its message's fields, its target type.
#[derive(Clone, Copy)]
pub struct Parts {
    pub fields: usize,
    pub target: usize,
}

// The place behind the type arguments at `at`: there the functions stand.
pub fn functions_start(l: &Layout, at: usize) -> usize
    ensures { (ts : List ResolvedType) (n : ℕ) → Counted (pool_words l.now) 8 (TypeStands l.now.names.rows (pool_words l.now)) ts at n → result ≡ n }
{
    let pool = l.pool;
    let count = image_words::section_word(pool, at);
    let place = image_words::after(pool, at);
    skip_types::skip_types(pool, place, count)
}
