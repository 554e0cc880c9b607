// A call on the image in standard input, for its lowest implementation: the answer's five fields on a line, then
// on acceptance each word of the output.
ghost use Rattle.std.specs.Prelude.{◌≡◌, length};
ghost use Rattle.programs.specs.Clauses.{AnswersLowest, TellsLowest};

use crate::room::room;
use answers::answer::Answer;
use call_answer::Call;
use rules::bounds::{DETAIL_BYTES, IMAGE_BYTES};
use std::io::Write;

// What the programs lend for an output, as 01 has it.
const OUTPUT_BYTES: usize = 65536;

// One byte more than an image can have, so that a longer input is read as too long: it is not cut to an image.
const INPUT_BYTES: usize = IMAGE_BYTES + 1;

// Room for the longest text: five fields and 16,384 words, 11 bytes each.
const LINES_BYTES: usize = 180279;

// The answer for the lowest implementation.
fn answer(call: Call, image: &[u8], output: &mut [u8], detail: &mut [u8]) -> Answer
    ensures { AnswersLowest call image.now output.old output.new detail.old detail.new result }
{
    let number = impl_lowest::lowest_implementation(image);
    call_answer::answer(call, image, number, output, detail)
}

// That answer in lines from the text's start on, as far as they fit, and where they end. A text of 180,279 bytes holds any.
pub fn answer_lines(call: Call, image: &[u8], text: &mut [u8]) -> usize
    ensures { TellsLowest call image.now result text.old text.new }
{
    let mut zeros = [0u8; OUTPUT_BYTES];
    let output: &mut [u8] = &mut zeros;
    let mut detail = [0u8; DETAIL_BYTES];
    let a = answer(call, image, output, &mut detail);
    lines::answer::put_answer(text, 0, a, output)
}

// The call on the image in standard input, for its lowest implementation: answered, and its lines handed to one `write_all`.
pub fn run<R: Input + Print>(rt: &R, call: Call) -> std::io::Result<()> {
    let mut image = [0u8; INPUT_BYTES];
    let len = crate::input::fill(&mut rt.reader(), &mut image)?;
    let mut text = room::<LINES_BYTES>();
    let n = answer_lines(call, &image[..len], &mut text);
    std::io::writer(rt).write_all(&text[..n])
}
