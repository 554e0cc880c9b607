// All rows of an image.
ghost use Rattle.std.specs.Prelude.{[]};
ghost use Rattle.image_words.specs.Verdict.{Says};
ghost use Rattle.image_layout.specs.Rows.{Cut};
ghost use Rattle.image_layout.specs.Readers.{rows_of};
ghost use Rattle.image_rows.specs.Verdict.{verdict};

use image_layout::Layout;
use image_rows::Rows;

// Names, whose texts all differ, strings and definitions.
pub fn check_rows(l: &Layout) -> bool
    requires { Cut l.now }
    ensures { Says (rows_of l.now) [] 0 (verdict result 0) }
{
    let named = image_rows::check_rows(Rows::Names, l);
    if !named {
        return false;
    }
    let differ = image_texts_differ::texts_differ(l.image, l.texts, l.names.rows as usize);
    if !differ {
        return false;
    }
    if !image_rows::check_rows(Rows::Strings, l) {
        return false;
    }
    image_rows::check_rows(Rows::Definitions, l)
}
