// Where a statement's parts stand.
ghost use Rattle.std.specs.Prelude.{◌≡◌, ℕ};
ghost use Rattle.rules.specs.Syntax.{Statement};
ghost use Rattle.image_layout.specs.Open.{pool_words};
ghost use Rattle.pool_bodies.specs.StatementAt.{StatementStands};

use image_layout::Layout;

// The place behind a statement.
pub fn skip_statement(l: &Layout, at: usize) -> usize
    ensures { (s : Statement) (n : ℕ) → StatementStands l.now.names.rows l.now.strings.rows (pool_words l.now) s at n → result ≡ n }
{
    let pool = l.pool;
    skip_functions::statements::skip_statement(pool, at)
}
