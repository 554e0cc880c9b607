// Expressions: each node says how many words it has and how many parts stand behind them.
ghost use Rattle.std.specs.Prelude.{◌≡◌, ℕ, ◌<◌, length};
ghost use Rattle.rules.specs.Syntax.{Expr};
ghost use Rattle.image_words.specs.Verdict.{section_words};
ghost use Rattle.pool_expressions.specs.ExprAt.{ExprAt};
ghost use Rattle.skip_types.specs.Pending.{Pending};
ghost use Rattle.skip_functions.specs.Clauses.{CountsNode, SkipsMaybeExpr};

use rules::kinds::ExprKind;
use skip_types::Node;

// The node of a kind at a place; a call's parts are its arguments.
fn expr_node(pool: &[u8], at: usize, k: ExprKind) -> Node
    requires { (at < length (section_words pool.now)) }
    ensures { CountsNode pool.now at k result }
{
    match k {
        ExprKind::Literal => Node { words: 3, parts: 0 },
        ExprKind::Flag => Node { words: 2, parts: 0 },
        ExprKind::Text => Node { words: 2, parts: 0 },
        ExprKind::Local => Node { words: 2, parts: 0 },
        ExprKind::SelfRef => Node { words: 1, parts: 0 },
        ExprKind::FieldAccess => Node { words: 2, parts: 1 },
        ExprKind::Call => Node {
            words: 3,
            parts: image_words::section_word(pool, at + 2) as usize,
        },
        ExprKind::TraitMethodCall => Node {
            words: 4,
            parts: 1 + image_words::section_word(pool, at + 3) as usize,
        },
        ExprKind::Binary => Node { words: 2, parts: 2 },
        ExprKind::Unary => Node { words: 2, parts: 1 },
        ExprKind::Unknown => Node { words: 1, parts: 0 },
    }
}

// The place behind so many expressions. More than the words of the pool are never pending.
pub fn skip_exprs(pool: &[u8], at: usize, count: u32) -> usize
    ensures { (names strings n : ℕ) → Pending (ExprAt names strings (section_words pool.now)) count at n → result ≡ n }
{
    let len = image_words::count(pool);
    let mut pending = count as usize;
    let mut next = at;
    while 0 < pending {
        if len <= next {
            return next;
        }
        if len < pending {
            return next;
        }
        let k = codes::expr_kind(image_words::section_word(pool, next));
        let node = expr_node(pool, next, k);
        next += node.words;
        pending = pending - 1 + node.parts;
    }
    next
}

// The place behind an expression.
pub fn skip_expr(pool: &[u8], at: usize) -> usize
    ensures { (names strings : ℕ) (e : Expr) (n : ℕ) → ExprAt names strings (section_words pool.now) e at n → result ≡ n }
{
    skip_exprs(pool, at, 1)
}

// The place behind 0, or 1 and an expression.
pub fn skip_maybe_expr(pool: &[u8], at: usize) -> usize
    ensures { SkipsMaybeExpr pool.now at result }
{
    if image_words::count(pool) <= at {
        return at;
    }
    if image_words::section_word(pool, at) == 0 {
        return at + 1;
    }
    skip_expr(pool, at + 1)
}
