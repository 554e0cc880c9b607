// The public calls: an image, an implementation's number and two lent buffers in, an answer out.
#![tactic(auto)]

pub mod twice;

ghost use Rattle.std.specs.Prelude.{◌≡◌};
ghost use Rattle.rules.specs.Answer.{project_answer, signatures_answer};
ghost use Rattle.answers.specs.Answers.{answer_of};

use answers::answer::Answer;
use call_answer::{Call, answer};
use rules::ids::TypeId;

// The signatures that an implementation's trait asks for.
pub fn expected_signatures(
    image: &[u8],
    number: TypeId,
    output: &mut [u8],
    detail: &mut [u8],
) -> Answer
    ensures { answer_of result output.new detail.new ≡ signatures_answer image.now number.0 output.old detail.old }
{
    answer(Call::Signatures, image, number, output, detail)
}

// The typed functions of an implementation.
pub fn project_impl(image: &[u8], number: TypeId, output: &mut [u8], detail: &mut [u8]) -> Answer
    ensures { answer_of result output.new detail.new ≡ project_answer image.now number.0 output.old detail.old }
{
    answer(Call::Projection, image, number, output, detail)
}
