// Little-endian words in a slice of bytes: reading, and writing below a limit.
#![tactic(auto)]

ghost use Rattle.std.specs.Prelude.{◌≡◌, ◌+◌, ◌≤◌, ◌<◌, length, get_or};
ghost use Rattle.words.specs.Words.{word_at};
ghost use Rattle.words.specs.Puts.{put};

// The word at a byte's place, all inside: nothing is tested, so that the four bytes can be one load. A sum and no
// `from_le_bytes`, whose array of bytes is a copy of a text to the gate's test (`tools/copies image_qualified`).
pub fn whole_word(image: &[u8], at: usize) -> u32
    requires { at + 4 ≤ length image.now }
    ensures { result ≡ word_at image.now at }
{
    let a = image[at] as u32;
    let b = image[at + 1] as u32;
    let c = image[at + 2] as u32;
    let d = image[at + 3] as u32;
    a + 256 * b + 65536 * c + 16777216 * d
}

// The byte at i, or 0 past the end. A test and no `get`, whose Option is a copy to the same test.
fn byte_at(image: &[u8], i: usize) -> u32
    ensures { (result ≡ get_or image.now i 0) × (result < 256) }
{
    if i < image.len() { image[i] as u32 } else { 0 }
}

// The word at a byte's place; bytes past the end count as 0.
pub fn word_at(image: &[u8], at: usize) -> u32
    ensures { result ≡ word_at image.now at }
{
    let n = image.len();
    if n <= at {
        return 0;
    }
    if 4 <= n - at {
        return whole_word(image, at);
    }
    byte_at(image, at)
        + 256 * byte_at(image, at + 1)
        + 65536 * byte_at(image, at + 2)
        + 16777216 * byte_at(image, at + 3)
}

// Writes a word where it ends at the limit or before, and says where the next goes.
pub fn put_word(out: &mut [u8], limit: usize, at: usize, w: u32) -> usize
    requires { (limit ≤ length out.old) × (at ≤ 1000000000) }
    ensures { (result ≡ at + 4) × (out.new ≡ put limit at w out.old) }
{
    if at + 4 <= limit {
        out[at..at + 4].copy_from_slice(&w.to_le_bytes());
    }
    at + 4
}
