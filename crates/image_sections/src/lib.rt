// The layout that an image's trailer tells.
#![tactic(auto)]

ghost use Rattle.std.specs.Prelude.{◌≡◌, true, ◌*◌, ◌≤◌, length};
ghost use Rattle.rules.specs.Image.{good_trailer};
ghost use Rattle.image_trailer.specs.Trailers.{meant};
ghost use Rattle.image_sections.specs.Tables.{Whole, TellsTable, TellsLayout};
ghost use Rattle.image_sections.specs.Laid.{Read};

use image_layout::{Layout, Table};
use image_trailer::{DEFINITION_WORDS, NAME_WORDS, STRING_WORDS, Trailer};
use rules::bounds::{IMAGE_BYTES, TRAILER_BYTES};

// The rows from start to stop.
fn table(image: &[u8], start: usize, stop: usize, width: usize) -> Table
    requires width { (1 ≤ width) × (width ≤ 4) }
    requires rows { Whole start stop (4 * width) 65536 }
    requires inside { stop ≤ length image.now }
    ensures { TellsTable image.now start stop width result }
{
    let rows = (stop - start) / (4 * width);
    Table {
        words: &image[start..stop],
        rows: rows as u32,
        width,
    }
}

// The layout that a good trailer tells.
fn layout_of(image: &[u8], t: Trailer) -> Layout
    requires { (24 ≤ length image.now) × (good_trailer (length image.now) (meant t) ≡ true) }
    ensures { TellsLayout image.now (meant t) result }
{
    let end = image.len() - TRAILER_BYTES;
    let names = table(image, t.names, t.strings, NAME_WORDS);
    let strings = table(image, t.strings, t.pool, STRING_WORDS);
    let definitions = table(image, t.definitions, end, DEFINITION_WORDS);
    Layout {
        image,
        texts: t.names,
        names,
        strings,
        pool: &image[t.pool..t.definitions],
        definitions,
    }
}

// The image's length, its trailer and its sections.
pub fn read_layout(image: &[u8]) -> Option<Layout>
    ensures { Read image.now result }
{
    let size = image.len();
    if !((TRAILER_BYTES <= size) & (size <= IMAGE_BYTES)) {
        return None;
    }
    let t = image_trailer::read_trailer(image);
    if !image_trailer::good_trailer(t, size) {
        return None;
    }
    Some(layout_of(image, t))
}
