// Type parameters in view.
ghost use Rattle.std.specs.Prelude.{◌*◌, take};
ghost use Rattle.rules.specs.Substitute.{view};
ghost use Rattle.subst_params.specs.Views.{Views};
ghost use Rattle.impl_rows.specs.Given.{Given};

use image_layout::Layout;
use rules::ids::NameId;
use subst_params::ROW;

// The words of 8 rows, the most that there are.
const VIEW_WORDS: usize = 8 * ROW;

// The type parameters at `params` with the type arguments at `types`, a row for each.
pub fn view(l: &Layout, params: usize, types: usize, count: usize) -> [u32; VIEW_WORDS]
    requires { Given l.now params types count }
    ensures { (g : Given l.now params types count) → Views l.now.names.rows (take (66 * count) result) 0 (view g.params g.types) }
{
    let pool = l.pool;
    let mut table = [0u32; VIEW_WORDS];
    let mut next = types;
    for i in 0..count {
        let h = type_from_pool::hold_type(l, next);
        let ty = h.ty;
        let name = NameId(image_words::section_word(pool, params + i));
        subst_params::write_row(&mut table, ROW * i, name, ty);
        next = h.next;
    }
    table
}
