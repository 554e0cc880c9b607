// An implementation's function against the signature that its trait asks for.
#![tactic(auto)]

mod params;
mod parts;

ghost use Rattle.std.specs.Prelude.{◌≡◌, ℕ, ◌≤◌};
ghost use Rattle.rules.specs.Syntax.{ImplFnDef};
ghost use Rattle.image_layout.specs.Open.{pool_words};
ghost use Rattle.pool_definitions.specs.DefinitionAt.{FunctionStands};
ghost use Rattle.check_signature.specs.Clauses.{ChecksSignature};

use answers::answer::Outcome;
use image_layout::Layout;
use rules::bounds::LOCAL_ROWS;
use rules::ids::NameId;
use type_words::MaybeType;

// A count of the table's rows as a word.
fn as_word(count: usize) -> u32
    ensures { count ≤ 64 → result ≡ count }
{
    if LOCAL_ROWS < count {
        return 0;
    }
    count as u32
}

// The function at `at` against the signature of this name, whose parameters are the rows of the table: counts, parameters, returns.
pub fn check_signature(
    l: &Layout,
    at: usize,
    name: NameId,
    names: &[u32],
    words: &[u32],
    lens: &[u32],
    count: usize,
    returns: MaybeType,
) -> Outcome
    ensures { ChecksSignature l.now at name names.now words.now lens.now count returns result }
{
    let pool = l.pool;
    let start = image_words::after(pool, at);
    let found = image_words::section_word(pool, start);
    let wanted = as_word(count);
    if found != wanted {
        return answers::answer::refused(check_types::mismatch::wrong_word(name, 1, wanted, found));
    }
    let place = image_words::after(pool, start);
    let r = crate::params::check_params(l, place, name, names, words, lens, count);
    if !r.ok {
        return r;
    }
    let end = crate::parts::return_start(l, at);
    check_types::check_return(name, returns, crate::parts::hold_return(l, end))
}

// Where the body of the function at `at` stands.
pub fn body_start(l: &Layout, at: usize) -> usize
    ensures { (f : ImplFnDef) (n : ℕ) (h : FunctionStands l.now.names.rows l.now.strings.rows (pool_words l.now) f at n) → result ≡ h.parts.return_end }
{
    let pool = l.pool;
    let place = crate::parts::return_start(l, at);
    skip_types::skip_maybe_type(pool, place)
}
