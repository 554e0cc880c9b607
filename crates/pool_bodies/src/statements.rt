// Statements in the pool.
ghost use Rattle.std.specs.Prelude.{◌≡◌, ◌<◌, get_or};
ghost use Rattle.rules.specs.Kinds.{statement_kind};
ghost use Rattle.rules.specs.ReadBodies.{statement_node, statement};
ghost use Rattle.rules.specs.declared.kinds.StatementKind.TheVariants.{Let};
ghost use Rattle.image_words.specs.Verdict.{section_words, Says};
ghost use Rattle.pool_bodies.specs.StatementAt.{let_of};

use rules::kinds::StatementKind;

// A Let behind its code.
#[tactic(auto, using(image_words::proofs::Says::steps), unfolding(rules::specs::ReadBodies::statement_node))]
pub fn check_let(pool: &[u8], at: usize, names: u32, strings: u32) -> Option<usize>
    ensures { Says (statement_node names strings Let) (section_words pool.now) at result }
{
    let ty = image_words::check_below(pool, at, names)?;
    let value = pool_types::resolved::check_maybe_type(pool, ty, names)?;
    pool_expressions::check_expression(pool, value, names, strings)
}

#[tactic(auto, using(crate::proofs::StatementLaws::statement_steps, image_words::proofs::Says::steps), unfolding(rules::specs::ReadBodies::statement_node))]
pub fn check_statement(pool: &[u8], at: usize, names: u32, strings: u32) -> Option<usize>
    ensures { Says (statement names strings) (section_words pool.now) at result }
{
    let n = image_words::check_word(pool, at)?;
    match codes::statement_kind(image_words::section_word(pool, at)) {
        StatementKind::Expr => pool_expressions::check_expression(pool, n, names, strings),
        StatementKind::Let => check_let(pool, n, names, strings),
        StatementKind::Return => pool_expressions::check_maybe_expression(pool, n, names, strings),
        StatementKind::Assign => {
            let value = pool_expressions::check_expression(pool, n, names, strings)?;
            pool_expressions::check_expression(pool, value, names, strings)
        }
        StatementKind::Unknown => None,
    }
}

// 1 where a Let's code stands, else 0.
pub fn let_at(pool: &[u8], at: usize) -> u32
    ensures { (result ≡ let_of (statement_kind (get_or (section_words pool.now) at 0))) × (result < 2) }
{
    match codes::statement_kind(image_words::section_word(pool, at)) {
        StatementKind::Let => 1,
        _ => 0,
    }
}
