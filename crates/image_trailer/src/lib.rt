// An image's trailer, read and tested.
#![tactic(auto)]

ghost use Rattle.std.specs.Prelude.{◌≡◌, ◌*◌, ◌≤◌, length};
ghost use Rattle.rules.specs.Image.{whole_rows, good_trailer};
ghost use Rattle.image_trailer.specs.Trailers.{meant, IsTrailer};

use rules::bounds::{DEFINITIONS, IMAGE_BYTES, NAMES, STRINGS, TRAILER_BYTES};

// Words of a row. What a definition row of format 1 has stands here; the layout hands it on.
pub const NAME_WORDS: usize = 4;

pub const STRING_WORDS: usize = 2;

pub const DEFINITION_WORDS: usize = 2;

// Where the sections start, the format, and the image's length.
#[derive(Clone, Copy)]
pub struct Trailer {
    pub names: usize,
    pub strings: usize,
    pub pool: usize,
    pub definitions: usize,
    pub format: usize,
    pub size: usize,
}

// The last six words.
pub fn read_trailer(image: &[u8]) -> Trailer
    requires { 24 ≤ length image.now }
    ensures { IsTrailer image.now result }
{
    let last = &image[image.len() - TRAILER_BYTES..];
    Trailer {
        names: image_words::section_word(last, 0) as usize,
        strings: image_words::section_word(last, 1) as usize,
        pool: image_words::section_word(last, 2) as usize,
        definitions: image_words::section_word(last, 3) as usize,
        format: image_words::section_word(last, 4) as usize,
        size: image_words::section_word(last, 5) as usize,
    }
}

// Whole rows of `width` words from start to stop, at most `most`.
fn whole_rows(start: usize, stop: usize, width: usize, most: usize) -> bool
    requires { (1 ≤ width) × (width ≤ 4) }
    ensures { result ≡ whole_rows start stop (4 * width) most }
{
    let bytes = stop.saturating_sub(start);
    (start <= stop) & (bytes % (4 * width) == 0) & (bytes / (4 * width) <= most)
}

// The pool has no bound but the image's.
pub fn good_trailer(t: Trailer, size: usize) -> bool
    requires { 24 ≤ size }
    ensures { result ≡ good_trailer size (meant t) }
{
    (t.format == 1)
        & (t.size == size)
        & whole_rows(t.names, t.strings, NAME_WORDS, NAMES)
        & whole_rows(t.strings, t.pool, STRING_WORDS, STRINGS)
        & whole_rows(t.pool, t.definitions, 1, IMAGE_BYTES)
        & whole_rows(
            t.definitions,
            size - TRAILER_BYTES,
            DEFINITION_WORDS,
            DEFINITIONS,
        )
}
