// A message's fields by name, where its body stands in the pool.
#![tactic(auto)]

ghost use Rattle.std.specs.Prelude.{◌≡◌, cond, List, ℕ, eqb};
ghost use Rattle.rules.specs.Syntax.{ResolvedType, Param};
ghost use Rattle.rules.specs.Infer.{find_last};
ghost use Rattle.type_words.specs.Holds.{MaybeHolds};
ghost use Rattle.image_layout.specs.Open.{pool_words};
ghost use Rattle.message_fields.specs.Fields.{Fields};
ghost use Rattle.message_fields.specs.Clauses.{FindsField};

use image_layout::Layout;
use image_words::after;
use rules::ids::NameId;
use type_words::MaybeType;

// The place of a field's type, if the field has the name.
fn pick(best: usize, place: usize, name: NameId, x: NameId) -> usize
    ensures { result ≡ cond (eqb x.0 name.0) place best }
{
    if x.0 == name.0 { place } else { best }
}

// Where the type of the last field of this name stands, or 0.
pub fn find_field(l: &Layout, at: usize, x: NameId) -> usize
    ensures { FindsField l.now at x result }
{
    let pool = l.pool;
    let count = image_words::section_word(pool, at);
    let mut next = after(pool, at);
    let mut best = 0;
    for _ in 0..count {
        let place = after(pool, next);
        best = pick(
            best,
            place,
            NameId(image_words::section_word(pool, next)),
            x,
        );
        next = skip_types::skip_type(pool, place);
    }
    best
}

// The type of the last field of this name.
pub fn field_type(l: &Layout, at: usize, x: NameId) -> MaybeType
    ensures { (ps : List (Param ResolvedType)) (n : ℕ) → Fields l.now.names.rows (pool_words l.now) ps at n → MaybeHolds l.now.names.rows result (find_last x.0 ps) }
{
    let place = find_field(l, at, x);
    if place == 0 {
        return MaybeType::none();
    }
    let h = type_from_pool::hold_type(l, place);
    let ty = h.ty;
    MaybeType::some(ty)
}
