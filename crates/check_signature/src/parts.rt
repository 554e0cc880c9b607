// The parts of an implementation's function, where it stands in the pool.
ghost use Rattle.std.specs.Prelude.{◌≡◌, ℕ};
ghost use Rattle.rules.specs.Syntax.{ImplFnDef};
ghost use Rattle.image_layout.specs.Open.{pool_words};
ghost use Rattle.pool_definitions.specs.DefinitionAt.{FunctionStands};
ghost use Rattle.check_signature.specs.Clauses.{HoldsReturn};

use image_layout::Layout;
use type_words::MaybeType;

// Where the return of the function at `at` stands: behind its name and its parameters.
pub fn return_start(l: &Layout, at: usize) -> usize
    ensures { (f : ImplFnDef) (n : ℕ) (h : FunctionStands l.now.names.rows l.now.strings.rows (pool_words l.now) f at n) → result ≡ h.parts.params_end }
{
    let pool = l.pool;
    let place = image_words::after(pool, at);
    skip_functions::functions::skip_params(pool, place)
}

// The return at `at`: 0, or 1 and its type.
pub fn hold_return(l: &Layout, at: usize) -> MaybeType
    ensures { HoldsReturn l.now at result }
{
    let pool = l.pool;
    if image_words::section_word(pool, at) == 0 {
        return MaybeType::none();
    }
    let place = image_words::after(pool, at);
    let h = type_from_pool::hold_type(l, place);
    let ty = h.ty;
    MaybeType::some(ty)
}
