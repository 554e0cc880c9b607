// String rows.
ghost use Rattle.std.specs.Prelude.{◌<◌};
ghost use Rattle.image_layout.specs.Rows.{Cut};
ghost use Rattle.image_rows.specs.Verdict.{StringSays};

use image_layout::Layout;

// A text inside the texts, of any length, well-formed by itself.
pub fn check_string_row(l: &Layout, i: u32) -> bool
    requires { Cut l.now × (i < l.now.strings.rows) }
    ensures { StringSays l.now i result }
{
    let row = image_layout::string_row(l, i);
    let texts = l.texts;
    let start = row.start as usize;
    let end = start + row.size as usize;
    if texts < end {
        return false;
    }
    utf8::well_formed(&l.image[start..end])
}
