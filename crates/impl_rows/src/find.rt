// The rows of implementations and traits.
ghost use Rattle.rules.specs.Syntax.{CompiledSchema};
ghost use Rattle.rules.specs.Options.{then};
ghost use Rattle.rules.specs.Substitute.{get};
ghost use Rattle.rules.specs.Signatures.{as_trait};
ghost use Rattle.rules.specs.Project.{as_implementation};
ghost use Rattle.image_layout.specs.Open.{Open};
ghost use Rattle.impl_rows.specs.Found.{Finds, ImplHere, TraitHere};

use image_layout::Layout;
use rules::ids::TypeId;
use rules::kinds::DefinitionKind;

// Where an implementation's body starts in the pool, if the row is an implementation's.
pub fn find_implementation(l: &Layout, number: TypeId) -> Option<usize>
    ensures { (s : CompiledSchema) → Open l.now s → Finds (ImplHere l.now) (then (get s number.0) as_implementation) result }
{
    let row = image_layout::definition_row(l, number);
    match row.kind {
        DefinitionKind::Implementation => Some(row.start as usize),
        _ => None,
    }
}

// Where a trait's body starts in the pool, if the row is a trait's.
pub fn find_trait(l: &Layout, number: TypeId) -> Option<usize>
    ensures { (s : CompiledSchema) → Open l.now s → Finds (TraitHere l.now) (then (get s number.0) as_trait) result }
{
    let row = image_layout::definition_row(l, number);
    match row.kind {
        DefinitionKind::Trait => Some(row.start as usize),
        _ => None,
    }
}
