// A number for each text: texts with different numbers differ, so that most pairs are told apart by one comparison.
ghost use Rattle.std.specs.Prelude.{◌≡◌, ◌≤◌, ◌<◌, length};
ghost use Rattle.image_texts_differ.specs.Hash.{hash_of, Hashes, Blank};

use image_texts::row::text_of;
use rules::bounds::NAMES;
use rules::ids::NameId;

pub fn hash(s: &[u8]) -> u32
    ensures { result ≡ hash_of s.now }
{
    let mut h: u32 = 0;
    for byte in s {
        h = h % 134217728 * 31 + u32::from(*byte);
    }
    h
}

// The numbers of all texts, in the order of their rows, and 0 behind them.
pub fn hashes(image: &[u8], names_start: usize, names: usize) -> [u32; NAMES]
    requires { (names_start ≤ 65536) × (names ≤ 1024) }
    ensures { (1024 ≡ length result) × Hashes image.now names_start names result × Blank names result }
{
    let mut hs = [0u32; NAMES];
    for i in 0..names {
        hs[i] = hash(text_of(image, names_start, NameId(i as u32)));
    }
    hs
}
