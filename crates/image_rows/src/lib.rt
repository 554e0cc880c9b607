// An image's rows of names, strings and definitions, each as the rules read it: one code for all, told which rows are meant.
#![tactic(auto)]

mod definitions;
mod names;
mod strings;

ghost use Rattle.std.specs.Prelude.{◌≡◌, ◌<◌};
ghost use Rattle.image_layout.specs.Rows.{Cut};
ghost use Rattle.image_rows.specs.Verdict.{table_of, RowSays, RowsSay};

use image_layout::Layout;
use rules::ids::{NameId, TypeId};

#[derive(Clone, Copy)]
pub enum Rows {
    Names,
    Strings,
    Definitions,
}

// How many there are.
fn count(which: Rows, l: &Layout) -> u32
    ensures { result ≡ (table_of which l.now).rows }
{
    match which {
        Rows::Names => l.names.rows,
        Rows::Strings => l.strings.rows,
        Rows::Definitions => l.definitions.rows,
    }
}

// One of them.
fn check_row(which: Rows, l: &Layout, i: u32) -> bool
    requires { Cut l.now × (i < (table_of which l.now).rows) }
    ensures { RowSays which l.now i result }
{
    match which {
        Rows::Names => names::check_name_row(l, NameId(i)),
        Rows::Strings => strings::check_string_row(l, i),
        Rows::Definitions => definitions::check_definition_row(l, TypeId(i)),
    }
}

// All of them.
pub fn check_rows(which: Rows, l: &Layout) -> bool
    requires { Cut l.now }
    ensures { RowsSay which l.now result }
{
    for i in 0..count(which, l) {
        if !check_row(which, l, i) {
            return false;
        }
    }
    true
}
