// The text of a name's row, as a part of the image.
ghost use Rattle.std.specs.Prelude.{◌≡◌, ◌+◌, ◌*◌, ◌≤◌, take, drop};
ghost use Rattle.words.specs.Words.{word_at};
ghost use Rattle.image_texts.specs.Rows.{row_text};

use rules::ids::NameId;
use words::word_at;

// The len bytes from start, or as many of them as there are.
pub fn part(s: &[u8], start: u32, len: u32) -> &[u8]
    ensures { result.now ≡ take len (drop start s.now) }
{
    let n = s.len();
    let a = start as usize;
    let e = a + (len as usize);
    if e <= n {
        return &s[a..e];
    }
    if a <= n {
        return &s[a..];
    }
    &s[..0]
}

// A name row has four words (`image_trailer::NAME_WORDS`).
const NAME_ROW_BYTES: usize = 16;

// Where a name's row says that its text starts.
pub fn text_start(image: &[u8], names_start: usize, name: NameId) -> u32
    requires { names_start ≤ 65536 }
    ensures { result ≡ word_at image.now (names_start + 16 * name.0) }
{
    word_at(image, names_start + NAME_ROW_BYTES * (name.0 as usize))
}

// How long a name's row says that its text is.
pub fn text_size(image: &[u8], names_start: usize, name: NameId) -> u32
    requires { names_start ≤ 65536 }
    ensures { result ≡ word_at image.now (names_start + 16 * name.0 + 4) }
{
    word_at(image, names_start + NAME_ROW_BYTES * (name.0 as usize) + 4)
}

// The text of a name.
pub fn text_of(image: &[u8], names_start: usize, name: NameId) -> &[u8]
    requires { names_start ≤ 65536 }
    ensures { result.now ≡ row_text image.now names_start name.0 }
{
    let start = text_start(image, names_start, name);
    part(image, start, text_size(image, names_start, name))
}
