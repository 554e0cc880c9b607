// Tests of an implementation's functions by their names: 9, then 10.
#![tactic(auto)]

pub mod repeats;
pub mod strangers;

ghost use Rattle.impl_name_tests.specs.Clauses.{TellsNames};

use answers::answer::Outcome;
use image_layout::Layout;

// Of the functions at these places, with their names beside. Both are asked, and then their order tells.
pub fn check_names(l: &Layout, trait_at: usize, places: &[usize], names: &[u32]) -> Outcome
    ensures { TellsNames l.now trait_at places.now names.now result }
{
    let repeats = repeats::no_repeat(names);
    let strangers = strangers::no_stranger(l, trait_at, places);
    project_outcome::first_refusal(repeats, strangers)
}
