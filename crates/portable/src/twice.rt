// The theorems of two calls, ensured of two that are made: with nothing presumed that repeats project_impl's contract.
ghost use Rattle.portable.specs.Clauses.{made, ProjectsTwice};

use answers::answer::Answer;
use rules::ids::TypeId;

#[derive(Clone, Copy)]
pub struct Both {
    pub first: Answer,
    pub second: Answer,
}

// One call of project_impl after the other, each with buffers of its own.
pub fn project_twice(
    image: &[u8],
    number: TypeId,
    output: &mut [u8],
    detail: &mut [u8],
    image2: &[u8],
    number2: TypeId,
    output2: &mut [u8],
    detail2: &mut [u8],
) -> Both
    ensures { ProjectsTwice (made image.now number.0 output.old output.new detail.old detail.new result.first)
        (made image2.now number2.0 output2.old output2.new detail2.old detail2.new result.second) }
{
    let first = crate::project_impl(image, number, output, detail);
    let second = crate::project_impl(image2, number2, output2, detail2);
    Both { first, second }
}
