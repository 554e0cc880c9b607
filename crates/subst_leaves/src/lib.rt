// Nodes with no part to resolve. Their visit is taken off already.
#![tactic(auto)]

ghost use Rattle.std.specs.Prelude.{◌<◌, ◌≡◌, false, length};
ghost use Rattle.image_layout.specs.Rows.{Cut};
ghost use Rattle.subst_leaves.specs.Says.{Keeps};
ghost use Rattle.subst_leaves.specs.Nodes.{Leaves, Names, Qualifieds, Poisons};
ghost use Rattle.image_layout.specs.Open.{pool_words};

use image_layout::Layout;
use rules::ids::{NameId, TypeId};
use type_words::HeldType;

// What resolving comes to: the place behind the expression, the visits left, whether it keeps the bounds, the type. The small
// fields stand together: each frame of the resolver's cycle has such an answer.
#[derive(Clone, Copy)]
pub struct Resolved {
    pub next: usize,
    pub left: u32,
    pub ok: bool,
    pub ty: HeldType,
}

pub fn failed() -> Resolved
    ensures { (result.ok ≡ false) × (result.left ≡ 0) }
{
    Resolved {
        ok: false,
        next: 0,
        left: 0,
        ty: HeldType::empty(),
    }
}

// A type that stands for itself.
pub fn leaf(l: &Layout, at: usize, left: u32) -> Resolved
    ensures { Keeps left result (Leaves l.now at left result) }
{
    let h = type_from_pool::hold_type(l, at);
    let ty = h.ty;
    Resolved {
        ok: true,
        next: h.next,
        left,
        ty,
    }
}

pub fn named(l: &Layout, at: usize, left: u32, params: &[u32]) -> Resolved
    requires { at < length (pool_words l.now) }
    ensures { Keeps left result (Names l.now at left params.now result) }
{
    let pool = l.pool;
    let x = NameId(image_words::section_word(pool, at + 1));
    Resolved {
        ok: true,
        next: at + 1 + 1,
        left,
        ty: subst_names::names::resolve_name(l, params, x),
    }
}

pub fn qualified(l: &Layout, at: usize, left: u32) -> Resolved
    requires { Cut l.now × (at < length (pool_words l.now)) }
    ensures { Keeps left result (Qualifieds l.now at left result) }
{
    let pool = l.pool;
    let namespace = NameId(image_words::section_word(pool, at + 1));
    let x = NameId(image_words::section_word(pool, at + 1 + 1));
    Resolved {
        ok: true,
        next: at + 1 + 1 + 1,
        left,
        ty: subst_names::names::resolve_qualified(l, namespace, x),
    }
}

// A generic name that is no alias: its argument at `at` is passed over, and nothing of it counts.
pub fn poison(l: &Layout, at: usize, left: u32) -> Resolved
    ensures { Keeps left result (Poisons l.now at left result) }
{
    let pool = l.pool;
    Resolved {
        ok: true, // whatever the argument would come to
        next: skip_types::skip_type(pool, at),
        left,
        ty: HeldType::named(TypeId::POISON),
    }
}
