// The C forms, for Rust or C to link.
#![tactic(auto)]

ghost use Rattle.std.specs.Prelude.{◌≡◌};
ghost use Rattle.rules.specs.Options.{is_some};
ghost use Rattle.rules.specs.Image.{readable};
ghost use Rattle.exports.specs.Clauses.{ExportsCall, ExportsExpected, ExportsProject};

use call_answer::Call;
use export_block::{ANSWER_WORDS, SHORT_BLOCK, put_answer};
use rules::ids::TypeId;

// Whether the image is readable.
#[unsafe(no_mangle)]
pub extern "C" fn fruscalitu_readable(image: &[u8]) -> bool
    ensures { result ≡ is_some (readable image.now) }
{
    image::is_readable(image)
}

// Either call, with the answer's five words in a lent block.
fn export(
    call: Call,
    image: &[u8],
    number: u32,
    output: &mut [u8],
    detail: &mut [u8],
    answer: &mut [u32],
) -> u32
    ensures { ExportsCall call image.now number output.old output.new detail.old detail.new answer.old answer.new result }
{
    if answer.len() < ANSWER_WORDS {
        return SHORT_BLOCK;
    }
    let a = call_answer::answer(call, image, TypeId(number), output, detail);
    put_answer(answer, a)
}

// As portable::expected_signatures, with the answer in a block.
#[unsafe(no_mangle)]
pub extern "C" fn fruscalitu_expected_signatures(
    image: &[u8],
    number: u32,
    output: &mut [u8],
    detail: &mut [u8],
    answer: &mut [u32],
) -> u32
    ensures { ExportsExpected image.now number output.old output.new detail.old detail.new answer.old answer.new result }
{
    export(Call::Signatures, image, number, output, detail, answer)
}

// As portable::project_impl, with the answer in a block.
#[unsafe(no_mangle)]
pub extern "C" fn fruscalitu_project_impl(
    image: &[u8],
    number: u32,
    output: &mut [u8],
    detail: &mut [u8],
    answer: &mut [u32],
) -> u32
    ensures { ExportsProject image.now number output.old output.new detail.old detail.new answer.old answer.new result }
{
    export(Call::Projection, image, number, output, detail, answer)
}
