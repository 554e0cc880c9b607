// The type written on a Let.
ghost use Rattle.project_let.specs.Clauses.{TellsWrittenType};

use image_layout::Layout;
use image_words::after;
use type_words::MaybeType;

// The type written on a Let, or none, and the place behind it.
#[derive(Clone, Copy)]
pub struct Wanted {
    pub ty: MaybeType,
    pub next: usize,
}

pub fn written_type(l: &Layout, at: usize) -> Wanted
    ensures { TellsWrittenType l.now at result }
{
    let pool = l.pool;
    let next = after(pool, at);
    if image_words::section_word(pool, at) == 0 {
        let ty = MaybeType::none();
        return Wanted { ty, next };
    }
    let h = type_from_pool::hold_type(l, next);
    let held = h.ty;
    let ty = MaybeType::some(held);
    Wanted { ty, next: h.next }
}
