// A whole expression's answer.
ghost use Rattle.image_layout.specs.Rows.{Cut};
ghost use Rattle.subst.specs.Answers.{AnswersAll};

use image_layout::Layout;
use rules::bounds::VISITS;
use type_words::HeldType;

// The visits of an expression that keeps the bounds, the place behind it, and its type.
#[derive(Clone, Copy)]
pub struct Substituted {
    pub visits: u32,
    pub next: usize,
    pub ty: HeldType,
}

// The expression at `at` with these type parameters in view: None beyond 1,024 visits, or where a run is over 64 words.
pub fn substitute(l: &Layout, at: usize, params: &[u32]) -> Option<Substituted>
    requires { Cut l.now }
    ensures { AnswersAll l.now at params.now result }
{
    let r = crate::cycle::substitute_type(l, at, VISITS, params);
    if !r.ok {
        return None;
    }
    let ty = r.ty;
    Some(Substituted {
        visits: VISITS - r.left,
        next: r.next,
        ty,
    })
}
