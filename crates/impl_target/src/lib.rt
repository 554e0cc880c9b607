// The message that an implementation is for.
#![tactic(auto)]

ghost use Rattle.impl_target.specs.Targets.{FindsTarget};

use image_layout::Layout;
use rules::ids::TypeId;
use rules::kinds::DefinitionKind;
use rules::tags::TypeTag;

// Where the message stands that the type at `at` is Named to.
pub fn target_message(l: &Layout, at: usize) -> Option<usize>
    ensures { FindsTarget l.now at result }
{
    let pool = l.pool;
    if image_words::section_word(pool, at) != TypeTag::NAMED {
        return None;
    }
    let d = image_words::section_word(pool, image_words::after(pool, at));
    let row = image_layout::definition_row(l, TypeId(d));
    match row.kind {
        DefinitionKind::Message => Some(row.start as usize),
        _ => None,
    }
}
