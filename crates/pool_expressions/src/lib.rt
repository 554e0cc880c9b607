// Expressions in the pool.
#![tactic(auto)]

ghost use Rattle.rules.specs.Reader.{maybe};
ghost use Rattle.rules.specs.ReadBodies.{exprs, expr_node, expr_tree, expression};
ghost use Rattle.rules.specs.declared.kinds.ExprKind.TheVariants.{Call, TraitMethodCall};
ghost use Rattle.image_words.specs.Verdict.{section_words, Says};

use rules::bounds::NESTING;
use rules::kinds::ExprKind;

// A call has fewer arguments than this.
const PAST_ARGUMENTS: u32 = 33;

// Operators are numbered from 0.
const BINARY_OPERATORS: u32 = 10;

const UNARY_OPERATORS: u32 = 2;

// So many expressions, each nested at most `nesting` deep.
#[cycle(check_call_check_expr_check_exprs_check_method)]
#[tactic(auto, using(image_words::proofs::Loops::turns))]
pub fn check_exprs(
    pool: &[u8],
    at: usize,
    names: u32,
    strings: u32,
    nesting: u32,
    count: u32,
) -> Option<usize>
    ensures { Says (exprs count (expr_tree names strings nesting)) (section_words pool.now) at result }
{
    let mut next = at;
    for _ in 0..count {
        next = check_expr(pool, next, names, strings, nesting)?;
    }
    Some(next)
}

// A call behind its code.
#[cycle(check_call_check_expr_check_exprs_check_method)]
#[tactic(auto, using(image_words::proofs::Says::steps), unfolding(rules::specs::ReadBodies::expr_node))]
pub fn check_call(pool: &[u8], at: usize, names: u32, strings: u32, nesting: u32) -> Option<usize>
    ensures { Says (expr_node names strings (expr_tree names strings nesting) Call 8) (section_words pool.now) at result }
{
    let count_at = image_words::check_below(pool, at, names)?;
    let first = image_words::check_below(pool, count_at, PAST_ARGUMENTS)?;
    let count = image_words::section_word(pool, count_at);
    check_exprs(pool, first, names, strings, nesting, count)
}

// A trait method's call behind its code.
#[cycle(check_call_check_expr_check_exprs_check_method)]
#[tactic(auto, using(image_words::proofs::Says::steps), unfolding(rules::specs::ReadBodies::expr_node))]
pub fn check_method(pool: &[u8], at: usize, names: u32, strings: u32, nesting: u32) -> Option<usize>
    ensures { Says (expr_node names strings (expr_tree names strings nesting) TraitMethodCall 9) (section_words pool.now) at result }
{
    let name = image_words::check_below(pool, at, names)?;
    let count_at = image_words::check_below(pool, name, names)?;
    let receiver = image_words::check_below(pool, count_at, PAST_ARGUMENTS)?;
    let count = image_words::section_word(pool, count_at);
    let first = check_expr(pool, receiver, names, strings, nesting)?;
    check_exprs(pool, first, names, strings, nesting, count)
}

// An expression, nested at most `nesting` deep.
#[cycle(check_call_check_expr_check_exprs_check_method)]
#[tactic(auto, using(image_words::proofs::Trees::expr_steps, image_words::proofs::Says::steps), unfolding(rules::specs::ReadBodies::expr_node))]
pub fn check_expr(pool: &[u8], at: usize, names: u32, strings: u32, nesting: u32) -> Option<usize>
    ensures { Says (expr_tree names strings nesting) (section_words pool.now) at result }
{
    let d = nesting.checked_sub(1)?;
    let n = image_words::check_word(pool, at)?;
    match codes::expr_kind(image_words::section_word(pool, at)) {
        ExprKind::Literal => pool_types::parts::check_wide(pool, n),
        ExprKind::Flag => image_words::check_below(pool, n, 2),
        ExprKind::Text => image_words::check_below(pool, n, strings),
        ExprKind::Local => image_words::check_below(pool, n, names),
        ExprKind::SelfRef => Some(n),
        ExprKind::FieldAccess => {
            let value = image_words::check_below(pool, n, names)?;
            check_expr(pool, value, names, strings, d)
        }
        ExprKind::Call => check_call(pool, n, names, strings, d),
        ExprKind::TraitMethodCall => check_method(pool, n, names, strings, d),
        ExprKind::Binary => {
            let left = image_words::check_below(pool, n, BINARY_OPERATORS)?;
            let right = check_expr(pool, left, names, strings, d)?;
            check_expr(pool, right, names, strings, d)
        }
        ExprKind::Unary => {
            let operand = image_words::check_below(pool, n, UNARY_OPERATORS)?;
            check_expr(pool, operand, names, strings, d)
        }
        ExprKind::Unknown => None,
    }
}

// An expression whose nesting is at most 32.
#[tactic(auto, unfolding(rules::specs::ReadBodies::expression))]
pub fn check_expression(pool: &[u8], at: usize, names: u32, strings: u32) -> Option<usize>
    ensures { Says (expression names strings) (section_words pool.now) at result }
{
    check_expr(pool, at, names, strings, NESTING)
}

// 0, or 1 and an expression.
#[tactic(auto, using(image_words::proofs::Says::maybe_steps))]
pub fn check_maybe_expression(pool: &[u8], at: usize, names: u32, strings: u32) -> Option<usize>
    ensures { Says (maybe (expression names strings)) (section_words pool.now) at result }
{
    let next = image_words::check_below(pool, at, 2)?;
    if image_words::section_word(pool, at) == 0 {
        Some(next)
    } else {
        check_expression(pool, next, names, strings)
    }
}
