// 9: no two of an implementation's functions have one name.
ghost use Rattle.std.specs.Prelude.{◌≡◌, List, [], map};
ghost use Rattle.rules.specs.Syntax.{ImplFnDef};
ghost use Rattle.rules.specs.Project.{no_repeat};
ghost use Rattle.project_outcome.specs.Outcomes.{Passes};

use answers::answer::Outcome;
use answers::refusal::Refusal;
use rules::ids::NameId;

// 9 at the first of the functions' names that came before.
pub fn no_repeat(names: &[u32]) -> Outcome
    ensures { (fs : List ImplFnDef) → names.now ≡ map (λ f. f.name) fs → Passes (no_repeat [] fs) result }
{
    for (i, &name) in names.iter().enumerate() {
        let name = NameId(name);
        if pool_traits::listed(&names[..i], name) {
            return answers::answer::refused(Refusal::at(9, name));
        }
    }
    answers::answer::accepted(0, 0)
}
