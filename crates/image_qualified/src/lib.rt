// The row of a qualified name: its text is the namespace's, a dot, and the name's.
#![tactic(auto)]

ghost use Rattle.std.specs.Prelude.{◌≡◌, ◌∷◌, ◌++◌, ◌≤◌};
ghost use Rattle.rules.specs.Words.{same};
ghost use Rattle.image_texts.specs.Rows.{row_text, find_row, qualified_text};

use image_texts::row::{part, text_of, text_size, text_start};
use image_texts::same::same_text;
use rules::ids::NameId;

// Whether a text is another, a dot, and a third: the halves are matched where they stand.
fn is_joined(s: &[u8], namespace: &[u8], name: &[u8]) -> bool
    ensures { result ≡ same (namespace.now ++ 46 ∷ name.now) s.now }
{
    let dot = namespace.len();
    let after = dot + 1;
    let end = after + name.len();
    if s.len() != end {
        return false;
    }
    if s[dot] != b'.' {
        return false;
    }
    // The second half first: names of one namespace agree in the first.
    if !same_text(name, &s[after..end]) {
        return false;
    }
    same_text(namespace, &s[..dot])
}

// The same of a row. One that says that it is shorter is; one that says that it is longer may have just this length, where the
// image ends.
fn is_joined_row(
    image: &[u8],
    names_start: usize,
    row: NameId,
    namespace: &[u8],
    name: &[u8],
) -> bool
    requires { names_start ≤ 65536 }
    ensures { result ≡ same (namespace.now ++ 46 ∷ name.now) (row_text image.now names_start row.0) }
{
    let size = text_size(image, names_start, row);
    if (size as usize) < namespace.len() + 1 + name.len() {
        return false;
    }
    is_joined(
        part(image, text_start(image, names_start, row), size),
        namespace,
        name,
    )
}

// NONE where no row has it: a row's number as the image has it, and as the rules' `find_row` gives it.
pub fn find_qualified(
    image: &[u8],
    names_start: usize,
    names: usize,
    namespace: NameId,
    name: NameId,
) -> NameId
    requires { (names_start ≤ 65536) × (names ≤ 1024) }
    ensures { result.0 ≡ find_row image.now names_start names (qualified_text image.now names_start namespace.0 name.0) }
{
    let first = text_of(image, names_start, namespace);
    let second = text_of(image, names_start, name);
    for i in 0..names {
        let row = NameId(i as u32);
        if is_joined_row(image, names_start, row, first, second) {
            return row;
        }
    }
    NameId::NONE
}
