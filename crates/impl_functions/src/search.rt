// The first function of a name.
ghost use Rattle.std.specs.Prelude.{List};
ghost use Rattle.rules.specs.Syntax.{ImplFnDef};
ghost use Rattle.rules.specs.Project.{find_function};
ghost use Rattle.impl_rows.specs.Found.{Finds};
ghost use Rattle.impl_functions.specs.Functions.{FunctionHere, Placed};

use image_layout::Layout;
use rules::ids::NameId;

// Where the function of this name stands, of those at these places.
pub fn find_function(l: &Layout, places: &[usize], x: NameId) -> Option<usize>
    ensures { (fs : List ImplFnDef) → Placed l.now fs places.now → Finds (FunctionHere l.now) (find_function x.0 fs) result }
{
    places
        .iter()
        .copied()
        .find(|&place| crate::places::name_at(l, place) == x)
}
