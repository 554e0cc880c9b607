// Whether all texts differ.
#![tactic(auto)]

ghost use Rattle.std.specs.Prelude.{◌≡◌, false, ◌+◌, ◌≤◌, ◌<◌, length};
ghost use Rattle.rules.specs.Words.{same};
ghost use Rattle.image_texts.specs.Rows.{row_text, new_row, rows_differ};
ghost use Rattle.image_texts_differ.specs.Hash.{Hashes, Apart};

use crate::hash::hashes;
use image_texts::row::text_of;
use image_texts::same::same_text;
use rules::ids::NameId;

mod hash;

// Whether a name has the text of an earlier one.
fn clash(image: &[u8], names_start: usize, hs: &[u32], name: NameId, earlier: NameId) -> bool
    requires { (names_start ≤ 65536) × (earlier.0 < name.0) × (name.0 < length hs.now) × Hashes image.now names_start (name.0 + 1) hs.now }
    ensures { result ≡ same (row_text image.now names_start earlier.0) (row_text image.now names_start name.0) }
{
    let i = name.0 as usize;
    let j = earlier.0 as usize;
    if hs[j] != hs[i] {
        return false;
    }
    same_text(
        text_of(image, names_start, earlier),
        text_of(image, names_start, name),
    )
}

// Whether one of these numbers is h. It has no early end, so that many can be compared at once.
fn among(hs: &[u32], h: u32) -> bool
    ensures { result ≡ false → Apart hs.now (length hs.now) h }
{
    let mut any = false;
    for number in hs {
        any = any | (*number == h);
    }
    any
}

// Whether no earlier name has the text of this one: each is compared.
fn no_clash(image: &[u8], names_start: usize, hs: &[u32], name: NameId) -> bool
    requires { (names_start ≤ 65536) × (name.0 < length hs.now) × Hashes image.now names_start (name.0 + 1) hs.now }
    ensures { result ≡ new_row image.now names_start name.0 }
{
    for j in 0..name.0 {
        if clash(image, names_start, hs, name, NameId(j)) {
            return false;
        }
    }
    true
}

// The same, by the numbers where none is equal.
fn is_new(image: &[u8], names_start: usize, hs: &[u32], name: NameId) -> bool
    requires { (names_start ≤ 65536) × (name.0 < length hs.now) × Hashes image.now names_start (name.0 + 1) hs.now }
    ensures { result ≡ new_row image.now names_start name.0 }
{
    let i = name.0 as usize;
    if !among(&hs[..i], hs[i]) {
        return true;
    }
    no_clash(image, names_start, hs, name)
}

fn all_new(image: &[u8], names_start: usize, names: usize, hs: &[u32]) -> bool
    requires { (names_start ≤ 65536) × (names ≤ 1024) × (1024 ≤ length hs.now) × Hashes image.now names_start names hs.now }
    ensures { result ≡ rows_differ image.now names_start names }
{
    for i in 0..names {
        if !is_new(image, names_start, hs, NameId(i as u32)) {
            return false;
        }
    }
    true
}

pub fn texts_differ(image: &[u8], names_start: usize, names: usize) -> bool
    requires { (names_start ≤ 65536) × (names ≤ 1024) }
    ensures { result ≡ rows_differ image.now names_start names }
{
    let hs = hashes(image, names_start, names);
    all_new(image, names_start, names, &hs)
}
