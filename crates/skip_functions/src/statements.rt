// Statements and bodies.
ghost use Rattle.std.specs.Prelude.{◌≡◌, ℕ};
ghost use Rattle.rules.specs.Syntax.{Statement, FnBody};
ghost use Rattle.image_words.specs.Verdict.{section_words};
ghost use Rattle.pool_bodies.specs.StatementAt.{StatementAt, BodyAt};
ghost use Rattle.skip_types.specs.Pending.{Pending};

use rules::kinds::StatementKind;

// The place behind a statement.
pub fn skip_statement(pool: &[u8], at: usize) -> usize
    ensures { (names strings : ℕ) (s : Statement) (n : ℕ) → StatementAt names strings (section_words pool.now) s at n → result ≡ n }
{
    if image_words::count(pool) <= at {
        return at;
    }
    let n = at + 1;
    let k = codes::statement_kind(image_words::section_word(pool, at));
    match k {
        StatementKind::Expr => crate::exprs::skip_expr(pool, n),
        StatementKind::Let => {
            let m = skip_types::skip_maybe_type(pool, n + 1);
            crate::exprs::skip_expr(pool, m)
        }
        StatementKind::Return => crate::exprs::skip_maybe_expr(pool, n),
        StatementKind::Assign => crate::exprs::skip_exprs(pool, n, 2),
        StatementKind::Unknown => at,
    }
}

// The place behind so many statements.
fn skip_statements(pool: &[u8], at: usize, count: u32) -> usize
    ensures { (names strings n : ℕ) → Pending (StatementAt names strings (section_words pool.now)) count at n → result ≡ n }
{
    let mut next = at;
    for _ in 0..count {
        next = skip_statement(pool, next);
    }
    next
}

// The place behind 0, or 1 and a block.
pub fn skip_body(pool: &[u8], at: usize) -> usize
    ensures { (names strings : ℕ) (b : FnBody) (n : ℕ) → BodyAt names strings (section_words pool.now) b at n → result ≡ n }
{
    if image_words::count(pool) <= at {
        return at;
    }
    if image_words::section_word(pool, at) == 0 {
        return at + 1;
    }
    let place = at + 1;
    let count = image_words::section_word(pool, place);
    skip_statements(pool, place + 1, count)
}
