// The type of an accepted expression, before its operands are written: found along its left spine, so that no subtree is typed again.
#![tactic(auto)]

ghost use Rattle.std.proofs.Math.Option.{Option};
ghost use Rattle.std.specs.Prelude.{ℕ};
ghost use Rattle.rules.specs.Syntax.{ResolvedType};
ghost use Rattle.rules.specs.Types.{VOID};
ghost use Rattle.rules.specs.Options.{or};
ghost use Rattle.type_words.specs.Holds.{Holds, MaybeHolds};
ghost use Rattle.write_expr_type.specs.Foretells.{Foretells};
ghost use Rattle.write_expr_type.specs.Clauses.{ForetellsPlace, ForetellsBinary, TellsOperandType};

use image_layout::Layout;
use infer_context::Context;
use rules::ids::PrimitiveType;
use rules::kinds::ExprKind;
use rules::tags::TypeTag;
use type_words::{HeldType, MaybeType};

// A place's type; Void for one that is refused.
fn or_void(m: MaybeType) -> HeldType
    ensures { (names : ℕ) (o : Option ResolvedType) → MaybeHolds names m o → Holds names result (or o VOID) }
{
    if m.some {
        let ty = m.ty;
        return ty;
    }
    HeldType::plain(PrimitiveType::VOID)
}

// The type that a place has by itself.
fn foretell_place(
    l: &Layout,
    ctx: Context,
    names: &[u32],
    words: &[u32],
    lens: &[u32],
    at: usize,
) -> HeldType
    ensures { ForetellsPlace l.now ctx names.now words.now lens.now at result }
{
    or_void(infer_context::expression_hint(l, ctx, names, words, lens, at))
}

// What a binary's type is before its left's is asked: a comparison's bool, else the hint.
fn foretell_binary(
    l: &Layout,
    ctx: Context,
    names: &[u32],
    words: &[u32],
    lens: &[u32],
    at: usize,
    nest: u32,
) -> MaybeType
    ensures { ForetellsBinary l.now ctx names.now words.now lens.now at nest result }
{
    let op = infer_context::operand(l, at);
    if 4 <= op {
        return MaybeType::some(HeldType::plain(PrimitiveType::BOOL));
    }
    let left = infer_context::first_part(l, at);
    let right = infer_context::skip_expr(l, left, nest);
    infer_context::binary_hint(
        l,
        ctx,
        names,
        words,
        lens,
        op,
        left,
        right,
        MaybeType::none(),
    )
}

// The type of the expression at `at`, which is its left's, or its value's, where it has none by itself.
pub fn foretell(
    l: &Layout,
    ctx: Context,
    names: &[u32],
    words: &[u32],
    lens: &[u32],
    at: usize,
    nest: u32,
) -> HeldType
    ensures { Foretells l.now names.now words.now lens.now ctx at nest result }
{
    let pool = l.pool;
    let mut place = at;
    let mut inner = nest;
    while 0 < inner {
        inner -= 1;
        let k = infer_context::kind_at(l, place);
        match k {
            ExprKind::Literal => {
                return infer_leaves::literal_own(image_words::section_word(pool, place));
            }
            ExprKind::Flag => return HeldType::plain(PrimitiveType::BOOL),
            ExprKind::Text => return HeldType::plain(TypeTag::STRING),
            ExprKind::Local => return foretell_place(l, ctx, names, words, lens, place),
            ExprKind::SelfRef => return foretell_place(l, ctx, names, words, lens, place),
            ExprKind::FieldAccess => return foretell_place(l, ctx, names, words, lens, place),
            ExprKind::Call => return HeldType::plain(PrimitiveType::VOID),
            ExprKind::TraitMethodCall => return HeldType::plain(PrimitiveType::VOID),
            ExprKind::Binary => {
                let h = foretell_binary(l, ctx, names, words, lens, place, inner);
                if h.some {
                    let ty = h.ty;
                    return ty;
                }
            }
            ExprKind::Unary => {}
            ExprKind::Unknown => return HeldType::empty(),
        }
        place = infer_context::first_part(l, place);
    }
    HeldType::empty()
}

// The type of a binary's left, from the type that the binary has.
pub fn operand_type(
    l: &Layout,
    ctx: Context,
    names: &[u32],
    words: &[u32],
    lens: &[u32],
    op: u32,
    left: usize,
    right: usize,
    nest: u32,
    ty: HeldType,
) -> HeldType
    ensures { TellsOperandType l.now ctx names.now words.now lens.now op left right nest ty result }
{
    let h = infer_context::binary_hint(
        l,
        ctx,
        names,
        words,
        lens,
        op,
        left,
        right,
        MaybeType::none(),
    );
    if h.some {
        let hint = h.ty;
        return hint;
    }
    if op < 4 {
        return ty;
    }
    foretell(l, ctx, names, words, lens, left, nest)
}
