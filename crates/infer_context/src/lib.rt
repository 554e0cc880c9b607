// A function's context, what an expression is by itself there (a local, SelfRef, a field of SelfRef), and where its parts stand.
#![tactic(auto)]

ghost use Rattle.std.specs.Prelude.{◌≡◌, ◌+◌, ◌<◌, length, get_or};
ghost use Rattle.rules.specs.Kinds.{expr_kind};
ghost use Rattle.image_layout.specs.Open.{pool_words};
ghost use Rattle.infer_context.specs.Stood.{AtExpr};
ghost use Rattle.infer_context.specs.PlaceKinds.{place_kind};
ghost use Rattle.infer_context.specs.Clauses.{HintsField, HintsExpression, HintsBinary};

use image_layout::Layout;
use image_words::after;
use rules::ids::NameId;
use rules::kinds::ExprKind;
use type_words::MaybeType;

// A function's context: its name, where the message's fields and the target type stand, and how many locals are in view.
#[derive(Clone, Copy)]
pub struct Context {
    pub function: NameId,
    pub fields: usize,
    pub target: usize,
    pub count: usize,
}

#[derive(Clone, Copy)]
pub enum PlaceKind {
    Local,
    Own,
    Field,
    Nowhere,
}

pub fn place_kind(k: ExprKind) -> PlaceKind
    ensures { result ≡ place_kind k }
{
    match k {
        ExprKind::Literal => PlaceKind::Nowhere,
        ExprKind::Flag => PlaceKind::Nowhere,
        ExprKind::Text => PlaceKind::Nowhere,
        ExprKind::Local => PlaceKind::Local,
        ExprKind::SelfRef => PlaceKind::Own,
        ExprKind::FieldAccess => PlaceKind::Field,
        ExprKind::Call => PlaceKind::Nowhere,
        ExprKind::TraitMethodCall => PlaceKind::Nowhere,
        ExprKind::Binary => PlaceKind::Nowhere,
        ExprKind::Unary => PlaceKind::Nowhere,
        ExprKind::Unknown => PlaceKind::Nowhere,
    }
}

// The kind of the code at a place.
pub fn kind_at(l: &Layout, at: usize) -> ExprKind
    ensures { result ≡ expr_kind (get_or (pool_words l.now) at 0) }
{
    let pool = l.pool;
    codes::expr_kind(image_words::section_word(pool, at))
}

// The word behind a code.
pub fn operand(l: &Layout, at: usize) -> u32
    ensures { at < length (pool_words l.now) → result ≡ get_or (pool_words l.now) (at + 1) 0 }
{
    let pool = l.pool;
    image_words::section_word(pool, after(pool, at))
}

// The place behind a code and a word.
pub fn first_part(l: &Layout, at: usize) -> usize
    ensures { at + 1 < length (pool_words l.now) → result ≡ at + 1 + 1 }
{
    let pool = l.pool;
    after(pool, after(pool, at))
}

// The place behind an expression.
pub fn skip_expr(l: &Layout, at: usize, nest: u32) -> usize
    ensures { AtExpr l.now nest at (λ e n. result ≡ n) }
{
    let pool = l.pool;
    skip_functions::exprs::skip_expr(pool, at)
}

// The type of a field access, if its receiver is SelfRef.
fn field_hint(l: &Layout, ctx: Context, at: usize) -> MaybeType
    ensures { HintsField l.now ctx at result }
{
    let k = place_kind(kind_at(l, first_part(l, at)));
    match k {
        PlaceKind::Own => message_fields::field_type(l, ctx.fields, NameId(operand(l, at))),
        PlaceKind::Local => MaybeType::none(),
        PlaceKind::Field => MaybeType::none(),
        PlaceKind::Nowhere => MaybeType::none(),
    }
}

// The type that an expression has by itself.
pub fn expression_hint(
    l: &Layout,
    ctx: Context,
    names: &[u32],
    words: &[u32],
    lens: &[u32],
    at: usize,
) -> MaybeType
    ensures { HintsExpression l.now ctx names.now words.now lens.now at result }
{
    let k = place_kind(kind_at(l, at));
    match k {
        PlaceKind::Local => locals::find_last(
            names,
            words,
            lens,
            ctx.count,
            NameId(operand(l, at)),
        ),
        PlaceKind::Own => {
            let h = type_from_pool::hold_type(l, ctx.target);
            let ty = h.ty;
            MaybeType::some(ty)
        }
        PlaceKind::Field => field_hint(l, ctx, at),
        PlaceKind::Nowhere => MaybeType::none(),
    }
}

// The hint of a binary's left: left's place, else right's, else for arithmetic the expected type.
pub fn binary_hint(
    l: &Layout,
    ctx: Context,
    names: &[u32],
    words: &[u32],
    lens: &[u32],
    op: u32,
    left: usize,
    right: usize,
    expected: MaybeType,
) -> MaybeType
    ensures { HintsBinary l.now ctx names.now words.now lens.now op left right expected result }
{
    let a = expression_hint(l, ctx, names, words, lens, left);
    if a.some {
        return a;
    }
    let b = expression_hint(l, ctx, names, words, lens, right);
    if b.some {
        return b;
    }
    if op < 4 {
        return expected;
    }
    MaybeType::none()
}
