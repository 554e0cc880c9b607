// An image's lowest implementation row.
#![tactic(auto)]

ghost use Rattle.std.specs.Prelude.{◌≡◌};
ghost use Rattle.rules.specs.Syntax.{CompiledSchema};
ghost use Rattle.rules.specs.Projone.{lowest_from, lowest_implementation};
ghost use Rattle.image_layout.specs.Open.{Open};

use image_layout::Layout;
use rules::ids::TypeId;

// The first row of an implementation; 0 if there is none.
fn lowest_row(l: &Layout) -> TypeId
    ensures { (s : CompiledSchema) → Open l.now s → result.0 ≡ lowest_from 0 s.definitions }
{
    let mut rows = 0..l.definitions.rows;
    let first = rows.find(|&row| impl_rows::find::find_implementation(l, TypeId(row)).is_some());
    TypeId(first.unwrap_or(0))
}

// 0 also where the image is not readable.
pub fn lowest_implementation(image: &[u8]) -> TypeId
    ensures { result.0 ≡ lowest_implementation image.now }
{
    let Some(l) = image::read_image(image) else {
        return TypeId(0);
    };
    lowest_row(&l)
}
