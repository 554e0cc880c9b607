// Expressions with no operator: literals, places, calls.
#![tactic(auto)]

ghost use Rattle.std.specs.Prelude.{◌≡◌, ℕ, ◌+◌, ◌*◌, ◌<◌};
ghost use Rattle.rules.specs.Syntax.{Expr};
ghost use Rattle.rules.specs.Fits.{literal_own};
ghost use Rattle.type_words.specs.Holds.{Holds, EachMaybe, MaybeHolds};
ghost use Rattle.literal_fits.specs.Literals.{literal_type};
ghost use Rattle.image_layout.specs.Open.{pool_words};
ghost use Rattle.infer_context.specs.Stood.{Stood};
ghost use Rattle.infer_leaves.specs.Clauses.{InfersLiteral, InfersPlace, InfersLeaf, NamesMethod};

use image_layout::Layout;
use infer_context::Context;
use infer_result::inferred::{Inferred, accepted, ended, refused, type_mismatch};
use rules::ids::{NameId, PrimitiveType};
use rules::kinds::ExprKind;
use rules::tags::TypeTag;
use type_words::{HeldType, MaybeType};

// The 64 bits of a literal.
fn literal_bits(l: &Layout, at: usize) -> u64
    ensures { (nest c low high n : ℕ) → Stood l.now.names.rows l.now.strings.rows (pool_words l.now) nest (Expr.literal c low high) at n → result ≡ low + 4294967296 * high }
{
    let pool = l.pool;
    let next = image_words::after(pool, at);
    let low = image_words::section_word(pool, next);
    let high = image_words::section_word(pool, image_words::after(pool, next));
    (low as u64) + 4294967296 * (high as u64)
}

// The type that a literal of this code takes: 0 Int, 1 UInt, 2 Float.
fn literal_type(code: u32, bits: u64, expected: MaybeType) -> MaybeType
    ensures { code < 3 → EachMaybe expected (λ names o. MaybeHolds names result (literal_type code bits o)) }
{
    if code == 0 {
        return literal_fits::literal_int_type(bits, expected);
    }
    if code == 1 {
        return literal_fits::literal_uint_type(bits, expected);
    }
    literal_fits::literal_float_type(expected)
}

// A literal's own type.
pub fn literal_own(code: u32) -> HeldType
    ensures { code < 3 → (names : ℕ) → Holds names result (literal_own code) }
{
    if code == 0 {
        return HeldType::plain(PrimitiveType::I64);
    }
    if code == 1 {
        return HeldType::plain(PrimitiveType::U64);
    }
    HeldType::plain(PrimitiveType::F64)
}

fn infer_literal(l: &Layout, at: usize, expected: MaybeType, context: u32) -> Inferred
    ensures { InfersLiteral l.now at expected context result }
{
    let pool = l.pool;
    let code = image_words::section_word(pool, at);
    let m = literal_type(code, literal_bits(l, at), expected);
    if m.some {
        let ty = m.ty;
        return ended(expected, context, ty);
    }
    let wanted = expected.ty;
    type_mismatch(code, wanted, literal_own(code))
}

// A local, SelfRef or a field: the type that it has by itself, or a refusal with its name.
fn infer_place(
    l: &Layout,
    ctx: Context,
    names: &[u32],
    words: &[u32],
    lens: &[u32],
    at: usize,
    expected: MaybeType,
    context: u32,
    number: u32,
) -> Inferred
    ensures { InfersPlace l.now ctx names.now words.now lens.now at expected context number result }
{
    let h = infer_context::expression_hint(l, ctx, names, words, lens, at);
    if h.some {
        let ty = h.ty;
        return ended(expected, context, ty);
    }
    refused(number, NameId(infer_context::operand(l, at)))
}

// The method's name in a trait method's call.
fn method_name(l: &Layout, at: usize) -> NameId
    ensures { NamesMethod l.now at result }
{
    let pool = l.pool;
    NameId(infer_context::operand(l, image_words::after(pool, at)))
}

// The type of an expression that is no operation, or its refusal; an operation is not asked here, and its arm's answer means nothing.
pub fn infer_leaf(
    l: &Layout,
    ctx: Context,
    names: &[u32],
    words: &[u32],
    lens: &[u32],
    at: usize,
    expected: MaybeType,
    context: u32,
) -> Inferred
    ensures { InfersLeaf l.now ctx names.now words.now lens.now at expected context result }
{
    let k = infer_context::kind_at(l, at);
    match k {
        ExprKind::Literal => infer_literal(l, at, expected, context),
        ExprKind::Flag => ended(expected, context, HeldType::plain(PrimitiveType::BOOL)),
        ExprKind::Text => ended(expected, context, HeldType::plain(TypeTag::STRING)),
        ExprKind::Local | ExprKind::SelfRef => infer_place(
            l, ctx, names, words, lens, at, expected, context, 16,
        ),
        ExprKind::FieldAccess => infer_place(l, ctx, names, words, lens, at, expected, context, 17),
        ExprKind::Call => refused(13, NameId(infer_context::operand(l, at))),
        ExprKind::TraitMethodCall => refused(14, method_name(l, at)),
        ExprKind::Binary | ExprKind::Unary | ExprKind::Unknown => accepted(HeldType::empty()),
    }
}
