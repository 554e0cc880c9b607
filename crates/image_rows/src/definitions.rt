// Definition rows, each with its body in the pool.
ghost use Rattle.std.specs.Prelude.{◌<◌};
ghost use Rattle.image_layout.specs.Rows.{Cut};
ghost use Rattle.image_rows.specs.Verdict.{DefinitionSays};

use image_layout::Layout;
use pool_definitions::implementations::check_implementation;
use pool_definitions::messages;
use rules::ids::TypeId;
use rules::kinds::DefinitionKind;

// A kind, and a body of that kind where the row says.
pub fn check_definition_row(l: &Layout, i: TypeId) -> bool
    requires { Cut l.now × (i.0 < l.now.definitions.rows) }
    ensures { DefinitionSays l.now i.0 result }
{
    let row = image_layout::definition_row(l, i);
    let start = row.start as usize;
    let names = l.names.rows;
    match row.kind {
        DefinitionKind::Other => true,
        DefinitionKind::Message => messages::check_message(l.pool, start, names).is_some(),
        DefinitionKind::GenericAlias => {
            messages::check_generic_alias(l.pool, start, names).is_some()
        }
        DefinitionKind::Trait => pool_traits::check_trait(l.pool, start, names).is_some(),
        DefinitionKind::Implementation => {
            check_implementation(l.pool, start, names, l.strings.rows).is_some()
        }
        DefinitionKind::Unknown => false,
    }
}
