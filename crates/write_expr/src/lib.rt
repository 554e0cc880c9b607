// Typed values: an accepted expression, written with the type of each part before it.
#![tactic(auto)]

ghost use Rattle.std.specs.Prelude.{◌≡◌, ◌≤◌, length};
ghost use Rattle.write_expr.specs.Writes.{leaf_size, Writes, WritesBinary, WritesUnary};

use image_layout::Layout;
use infer_context::Context;
use rules::kinds::ExprKind;
use rules::tags::ExprTag;
use type_words::HeldType;
use write_expr_type::operand_type;
use write_words::{put_type, put_words};

// How many of a leaf's words stand in its value.
fn leaf_size(k: ExprKind) -> usize
    ensures { result ≡ leaf_size k }
{
    match k {
        ExprKind::Literal => 3,
        ExprKind::Flag => 2,
        ExprKind::Text => 2,
        ExprKind::Local => 2,
        ExprKind::SelfRef => 1,
        ExprKind::FieldAccess => 2,
        ExprKind::Call => 0,
        ExprKind::TraitMethodCall => 0,
        ExprKind::Binary => 0,
        ExprKind::Unary => 0,
        ExprKind::Unknown => 0,
    }
}

// The value of the accepted expression at `at`, of type `ty`, and where the next word goes.
#[cycle(write_binary_write_expr_write_unary)]
pub fn write_expr(
    l: &Layout,
    ctx: Context,
    names: &[u32],
    words: &[u32],
    lens: &[u32],
    at: usize,
    nest: u32,
    ty: HeldType,
    out: &mut [u8],
    limit: usize,
    to: usize,
) -> usize
    requires { limit ≤ length out.old }
    ensures { Writes l.now names.now words.now lens.now ctx at nest ty limit to out.old result out.new }
{
    if nest == 0 {
        return to;
    }
    let next = put_type(out, limit, to, ty);
    let pool = l.pool;
    let code = image_words::section_word(pool, at);
    if code == ExprTag::BINARY {
        return write_binary(
            l,
            ctx,
            names,
            words,
            lens,
            at,
            nest - 1,
            ty,
            out,
            limit,
            next,
        );
    }
    if code == ExprTag::UNARY {
        return write_unary(
            l,
            ctx,
            names,
            words,
            lens,
            at,
            nest - 1,
            ty,
            out,
            limit,
            next,
        );
    }
    put_words(l, at, leaf_size(codes::expr_kind(code)), out, limit, next)
}

// Code and operator, then both operands: the right has the left's type.
#[cycle(write_binary_write_expr_write_unary)]
fn write_binary(
    l: &Layout,
    ctx: Context,
    names: &[u32],
    words: &[u32],
    lens: &[u32],
    at: usize,
    nest: u32,
    ty: HeldType,
    out: &mut [u8],
    limit: usize,
    to: usize,
) -> usize
    requires { limit ≤ length out.old }
    ensures { WritesBinary l.now names.now words.now lens.now ctx at nest ty limit to out.old result out.new }
{
    let op = infer_context::operand(l, at);
    let left = infer_context::first_part(l, at);
    let right = infer_context::skip_expr(l, left, nest);
    let t = operand_type(l, ctx, names, words, lens, op, left, right, nest, ty);
    let a = put_words(l, at, 2, out, limit, to);
    let b = write_expr(l, ctx, names, words, lens, left, nest, t, out, limit, a);
    write_expr(l, ctx, names, words, lens, right, nest, t, out, limit, b)
}

// Code and operator, then the value, of the same type.
#[cycle(write_binary_write_expr_write_unary)]
fn write_unary(
    l: &Layout,
    ctx: Context,
    names: &[u32],
    words: &[u32],
    lens: &[u32],
    at: usize,
    nest: u32,
    ty: HeldType,
    out: &mut [u8],
    limit: usize,
    to: usize,
) -> usize
    requires { limit ≤ length out.old }
    ensures { WritesUnary l.now names.now words.now lens.now ctx at nest ty limit to out.old result out.new }
{
    let value = infer_context::first_part(l, at);
    let a = put_words(l, at, 2, out, limit, to);
    write_expr(l, ctx, names, words, lens, value, nest, ty, out, limit, a)
}
