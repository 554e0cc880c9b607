// 10: each of an implementation's functions has a name that its trait asks for.
ghost use Rattle.impl_name_tests.specs.Clauses.{TellsStrangers};

use answers::answer::Outcome;
use answers::refusal::Refusal;
use image_layout::Layout;

// 10 at the first of the functions at these places that is none of the trait functions at `trait_at`.
pub fn no_stranger(l: &Layout, trait_at: usize, places: &[usize]) -> Outcome
    ensures { TellsStrangers l.now trait_at places.now result }
{
    let pool = l.pool;
    let names = impl_functions::names::function_names(l, trait_at);
    let known = impl_functions::names::few(image_words::section_word(pool, trait_at));
    for &place in places {
        let name = impl_functions::places::name_at(l, place);
        if !pool_traits::listed(&names[..known], name) {
            return answers::answer::refused(Refusal::at(10, name));
        }
    }
    answers::answer::accepted(0, 0)
}
