// An answer in lines: its five fields on the first; on acceptance each word of the output on one of its own.
ghost use Rattle.std.specs.Prelude.{◌≤◌, [], ◌∷◌, map, length, take};
ghost use Rattle.rules.specs.Words.{words};
ghost use Rattle.rules.specs.Projone.{lines};
ghost use Rattle.answers.specs.Answers.{answer_of};
ghost use Rattle.lines.specs.Text.{Tells};
ghost use Rattle.lines.specs.Lines.{line_text, lines_text, fields_of};

use crate::text::put_number;
use answers::answer::Answer;

// The five fields on a line.
pub fn put_fields(text: &mut [u8], at: usize, a: Answer) -> usize
    requires { at ≤ length text.old }
    ensures { Tells (line_text (fields_of a)) at result text.old text.new }
{
    let function = a.function;
    let second = a.second;
    let behind_number = put_number(text, at, a.number, b' ');
    let behind_function = put_number(text, behind_number, function.0, b' ');
    let behind_second = put_number(text, behind_function, second.0, b' ');
    let behind_length = put_number(text, behind_second, a.length, b' ');
    put_number(text, behind_length, a.visits, b'\n')
}

// The words of so many bytes, as far as there are such, one on a line.
fn put_words(text: &mut [u8], at: usize, output: &[u8], size: u32) -> usize
    requires { at ≤ length text.old }
    ensures { Tells (lines_text (map (λ w. w ∷ []) (words (take size output.now)))) at result text.old text.new }
{
    let count = output.len().min(size as usize) / 4;
    let mut next = at;
    for i in 0..count {
        next = put_number(text, next, words::word_at(output, 4 * i), b'\n');
    }
    next
}

// All lines of an answer. Its detail is not told, so any will do.
pub fn put_answer(text: &mut [u8], at: usize, a: Answer, output: &[u8]) -> usize
    requires { at ≤ length text.old }
    ensures { Tells (lines_text (lines (answer_of a output.now []))) at result text.old text.new }
{
    let next = put_fields(text, at, a);
    if a.number != 0 {
        return next;
    }
    put_words(text, next, output, a.length)
}
