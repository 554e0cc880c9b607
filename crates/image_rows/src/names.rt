// Name rows.
ghost use Rattle.std.specs.Prelude.{◌<◌};
ghost use Rattle.image_layout.specs.Rows.{Cut};
ghost use Rattle.image_rows.specs.Verdict.{NameSays};

use image_layout::{Layout, NOWHERE};
use rules::bounds::TEXT_BYTES;
use rules::ids::{NameId, TypeId};

// A text of 1 to 255 bytes inside the texts, well-formed by itself; a definition that exists or NONE; an alias's type or NONE.
pub fn check_name_row(l: &Layout, i: NameId) -> bool
    requires { Cut l.now × (i.0 < l.now.names.rows) }
    ensures { NameSays l.now i.0 result }
{
    let row = image_layout::name_row(l, i);
    let texts = l.texts;
    let start = row.start as usize;
    let size = row.size as usize;
    let end = start + size;
    if !((1 <= size) & (size <= TEXT_BYTES)) {
        return false;
    }
    if texts < end {
        return false;
    }
    if !utf8::well_formed(&l.image[start..end]) {
        return false;
    }
    let definition = row.definition;
    if !((definition.0 < l.definitions.rows) | (definition.0 == TypeId::NONE.0)) {
        return false;
    }
    if row.alias == NOWHERE {
        return true;
    }
    pool_types::resolved::check_type(l.pool, row.alias as usize, l.names.rows).is_some()
}
