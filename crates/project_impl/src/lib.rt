// The projection of an implementation behind its trait, on a readable image.
#![tactic(auto)]

ghost use Rattle.image_layout.specs.Rows.{Cut};
ghost use Rattle.impl_trait.specs.Subjects.{About};
ghost use Rattle.project_impl.specs.Clauses.{Projects};

use answers::answer::Outcome;
use answers::refusal::Refusal;
use image_layout::Layout;
use impl_trait::Subject;

pub mod found;

// The functions' words, as far as they fit. 5, then what the trait's functions come to.
pub fn project(l: &Layout, f: Subject, out: &mut [u8]) -> Outcome
    requires { Cut l.now × About l.now f }
    ensures { Projects l.now f out.old out.new result }
{
    let target = f.target;
    let Some(fields) = impl_target::target_message(l, target) else {
        return answers::answer::refused(Refusal::alone(5));
    };
    crate::found::project_found(l, f.start, f.types, fields, target, out)
}
