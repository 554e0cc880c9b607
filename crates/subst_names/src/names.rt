// Names: the primitive or the definition behind one.
ghost use Rattle.std.specs.Prelude.{◌<◌, ◌≡◌};
ghost use Rattle.std.proofs.Math.Option.{Option};
ghost use Rattle.rules.specs.Words.{NONE};
ghost use Rattle.rules.specs.Options.{or, then};
ghost use Rattle.rules.specs.Syntax.{ResolvedType, CompiledSchema};
ghost use Rattle.rules.specs.Substitute.{number, lookup, lookup_primitive_alias};
ghost use Rattle.image_layout.specs.Rows.{Cut};
ghost use Rattle.image_layout.specs.Open.{Open, AliasStands, pool_words};
ghost use Rattle.type_words.specs.Holds.{MaybeHolds};
ghost use Rattle.subst_names.specs.Clauses.{ResolvesName, ResolvesQualified};

use image_layout::{Layout, NOWHERE};
use rules::ids::{NameId, PrimitiveType, TypeId};
use rules::tags::TypeTag;
use type_words::{HeldType, MaybeType};

// The number of a Named alias, else NONE.
fn alias_number(l: &Layout, start: u32) -> TypeId
    ensures { (o : Option ResolvedType) → AliasStands l.now.names.rows (pool_words l.now) start o → result.0 ≡ or (then o number) NONE }
{
    if start == NOWHERE {
        return TypeId::NONE;
    }
    let pool = l.pool;
    let at = start as usize;
    if image_words::section_word(pool, at) != TypeTag::NAMED {
        return TypeId::NONE;
    }
    TypeId(image_words::section_word(pool, at + 1))
}

// A name's definition, else the number of its Named alias, else NONE.
pub fn lookup(l: &Layout, x: NameId) -> TypeId
    ensures { (s : CompiledSchema) → Open l.now s → x.0 < l.now.names.rows → result.0 ≡ or (lookup s x.0) NONE }
{
    let row = image_layout::name_row(l, x);
    let d = row.definition;
    if d.0 != TypeId::NONE.0 {
        return d;
    }
    alias_number(l, row.alias)
}

// A name's alias where it is a primitive.
pub fn lookup_primitive_alias(l: &Layout, x: NameId) -> MaybeType
    ensures { (s : CompiledSchema) → Open l.now s → x.0 < l.now.names.rows → MaybeHolds l.now.names.rows result (lookup_primitive_alias s x.0) }
{
    let row = image_layout::name_row(l, x);
    let start = row.alias;
    if start == NOWHERE {
        return MaybeType::none();
    }
    let pool = l.pool;
    let code = image_words::section_word(pool, start as usize);
    if code <= PrimitiveType::VOID {
        return MaybeType::some(HeldType::plain(code));
    }
    MaybeType::none()
}

// The first equal type parameter's argument; else an alias to a primitive; else the definition or the Named alias; else poison.
pub fn resolve_name(l: &Layout, params: &[u32], x: NameId) -> HeldType
    ensures { ResolvesName l.now params.now x result }
{
    let a = subst_params::find_param(params, x);
    if a.some {
        return a.ty;
    }
    let named = HeldType::named(lookup(l, x));
    let p = lookup_primitive_alias(l, x);
    let primitive = p.ty;
    if p.some {
        return primitive;
    }
    named
}

// The definition or the Named alias of the name with the text namespace, ".", name; else poison.
pub fn resolve_qualified(l: &Layout, namespace: NameId, x: NameId) -> HeldType
    requires { Cut l.now }
    ensures { ResolvesQualified l.now namespace x result }
{
    let row = image_qualified::find_qualified(
        l.image,
        l.texts,
        l.names.rows as usize,
        namespace,
        x,
    );
    if row.0 == NameId::NONE.0 {
        return HeldType::named(TypeId::POISON);
    }
    HeldType::named(lookup(l, row))
}
