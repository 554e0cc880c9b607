// An answer's five words in a lent block.
#![tactic(auto)]

ghost use Rattle.std.specs.Prelude.{◌≤◌, ◌≡◌, length};
ghost use Rattle.rules.specs.Words.{over_start};
ghost use Rattle.export_block.specs.Block.{words_of};

use answers::answer::Answer;

// What a call answers, and touches nothing, where the block has fewer than five words. No number of the rules.
pub const SHORT_BLOCK: u32 = 4294967295;

// An answer's words.
pub const ANSWER_WORDS: usize = 5;

// Puts the five words at the block's start; the rest stays. Gives the number.
pub fn put_answer(block: &mut [u32], a: Answer) -> u32
    requires { 5 ≤ length block.old }
    ensures { (result ≡ a.number) × (block.new ≡ over_start (words_of a) block.old) }
{
    let function = a.function;
    let second = a.second;
    let words = [a.number, function.0, second.0, a.length, a.visits];
    block[..ANSWER_WORDS].copy_from_slice(&words);
    a.number
}
