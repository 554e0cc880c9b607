// An image by its sections, and its rows: all that a layer above knows of the image but the pool's words.
#![tactic(auto)]

ghost use Rattle.image_layout.specs.Rows.{IsRow, IsNameRow, IsStringRow, IsDefinitionRow};

use rules::ids::{NameId, TypeId};
use rules::kinds::DefinitionKind;

// The place in the pool of what is not there.
pub const NOWHERE: u32 = 4294967295;

// A section of rows, each of so many words: how wide a row is, this tells.
#[derive(Clone, Copy)]
pub struct Table<'a> {
    pub words: &'a [u8],
    pub rows: u32,
    pub width: usize,
}

// An image with the length of its texts, in bytes, and the sections behind them, each a slice of it.
#[derive(Clone, Copy)]
pub struct Layout<'a> {
    pub image: &'a [u8],
    pub texts: usize,
    pub names: Table<'a>,
    pub strings: Table<'a>,
    pub pool: &'a [u8],
    pub definitions: Table<'a>,
}

// A name's row: its text, its definition or NONE, its alias's place in the pool or NONE.
#[derive(Clone, Copy)]
pub struct NameRow {
    pub start: u32,
    pub size: u32,
    pub definition: TypeId,
    pub alias: u32,
}

// A string's row: its text.
#[derive(Clone, Copy)]
pub struct StringRow {
    pub start: u32,
    pub size: u32,
}

// A definition's row; past the rows its kind is Unknown.
#[derive(Clone, Copy)]
pub struct DefinitionRow {
    pub kind: DefinitionKind,
    pub start: u32,
}

// The words of row i, as far as the section has them; none past the rows. A slice, so that a row's place is worked out once.
fn row<'a>(t: &Table<'a>, i: u32) -> &'a [u8]
    ensures { IsRow t.now i result.now }
{
    if t.rows <= i {
        return &t.words[..0];
    }
    let words = image_words::count(t.words);
    // In 128 bits the product of a width and a row fits, so that one multiplication tells.
    let place = t.width as u128 * i as u128;
    if words as u128 <= place {
        return &t.words[..0];
    }
    let start = place as usize;
    let len = t.width.min(words - start);
    &t.words[4 * start..4 * (start + len)]
}

pub fn name_row(l: &Layout, x: NameId) -> NameRow
    ensures { IsNameRow l.now x.0 result }
{
    let row = row(&l.names, x.0);
    NameRow {
        start: image_words::section_word(row, 0),
        size: image_words::section_word(row, 1),
        definition: TypeId(image_words::section_word(row, 2)),
        alias: image_words::section_word(row, 3),
    }
}

pub fn string_row(l: &Layout, i: u32) -> StringRow
    ensures { IsStringRow l.now i result }
{
    let row = row(&l.strings, i);
    StringRow {
        start: image_words::section_word(row, 0),
        size: image_words::section_word(row, 1),
    }
}

pub fn definition_row(l: &Layout, d: TypeId) -> DefinitionRow
    ensures { IsDefinitionRow l.now d.0 result }
{
    let t = &l.definitions;
    let i = d.0;
    if t.rows <= i {
        return DefinitionRow {
            kind: DefinitionKind::Unknown,
            start: 0,
        };
    }
    let row = row(t, i);
    DefinitionRow {
        kind: codes::definition_kind(image_words::section_word(row, 0)),
        start: image_words::section_word(row, 1),
    }
}
