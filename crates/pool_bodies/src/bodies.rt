// Bodies of functions in the pool.
ghost use Rattle.rules.specs.ReadBodies.{block, body};
ghost use Rattle.image_words.specs.Verdict.{section_words, Says};

use crate::statements;
use rules::bounds::{LETS, STATEMENTS};

// At most 256 statements, at most 32 of them Lets.
#[tactic(auto, using(crate::proofs::Blocks::block_steps))]
pub fn check_block(pool: &[u8], at: usize, names: u32, strings: u32) -> Option<usize>
    ensures { Says (block names strings) (section_words pool.now) at result }
{
    let mut next = image_words::check_count(pool, at, STATEMENTS)?;
    let mut lets = 0;
    for _ in 0..image_words::section_word(pool, at) {
        lets += statements::let_at(pool, next);
        next = statements::check_statement(pool, next, names, strings)?;
    }
    if LETS < lets { None } else { Some(next) }
}

// 0 for an external function, or 1 and a block.
#[tactic(auto, using(crate::proofs::Blocks::body_steps))]
pub fn check_body(pool: &[u8], at: usize, names: u32, strings: u32) -> Option<usize>
    ensures { Says (body names strings) (section_words pool.now) at result }
{
    let next = image_words::check_below(pool, at, 2)?;
    if image_words::section_word(pool, at) == 0 {
        Some(next)
    } else {
        check_block(pool, next, names, strings)
    }
}
