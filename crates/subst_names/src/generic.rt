// Generic aliases of one parameter.
ghost use Rattle.std.specs.Prelude.{◌<◌, ◌≡◌, false};
ghost use Rattle.rules.specs.Syntax.{CompiledSchema};
ghost use Rattle.rules.specs.Substitute.{lookup_alias};
ghost use Rattle.image_layout.specs.Open.{Open, pool_words};
ghost use Rattle.subst_names.specs.Aliases.{is_generic, IsAlias};
ghost use Rattle.subst_names.specs.Clauses.{TellsOneParameter};

use image_layout::Layout;
use rules::ids::NameId;
use rules::kinds::DefinitionKind;

// Whether there is such an alias; its parameter, and where its target stands in the pool.
#[derive(Clone, Copy)]
pub struct Alias {
    pub some: bool,
    pub param: NameId,
    pub target: usize,
}

fn none() -> Alias
    ensures { result.some ≡ false }
{
    Alias {
        some: false,
        param: NameId::NONE,
        target: 0,
    }
}

fn is_generic(k: DefinitionKind) -> bool
    ensures { result ≡ is_generic k }
{
    match k {
        DefinitionKind::Other => false,
        DefinitionKind::Message => false,
        DefinitionKind::GenericAlias => true,
        DefinitionKind::Trait => false,
        DefinitionKind::Implementation => false,
        DefinitionKind::Unknown => false,
    }
}

// The alias that stands in the pool at `start`, if it has one parameter.
fn one_parameter(l: &Layout, start: u32) -> Alias
    ensures { TellsOneParameter l.now start result }
{
    let pool = l.pool;
    let at = start as usize;
    if image_words::section_word(pool, at) != 1 {
        return none();
    }
    Alias {
        some: true,
        param: NameId(image_words::section_word(pool, at + 1)),
        target: at + 2,
    }
}

// The one-parameter generic alias that is a name's definition, else its Named alias.
pub fn lookup_alias(l: &Layout, x: NameId) -> Alias
    ensures { (s : CompiledSchema) → Open l.now s → x.0 < l.now.names.rows → IsAlias l.now.names.rows (pool_words l.now) result (lookup_alias s x.0) }
{
    let d = crate::names::lookup(l, x);
    let row = image_layout::definition_row(l, d);
    let k = row.kind;
    if is_generic(k) {
        return one_parameter(l, row.start);
    }
    none()
}
