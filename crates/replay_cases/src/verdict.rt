// An answer held against a stored case.
ghost use Rattle.std.specs.Prelude.{◌+◌, ◌≤◌, ◌≡◌, length};
ghost use Rattle.answers.specs.Answers.{answer_of};
ghost use Rattle.replay_cases.specs.Judged.{stored_fields, judged, agrees};

use crate::buffers::holds;
use crate::case::Case;
use answers::answer::Answer;

// What every lent byte is before a call.
pub const OUTPUT_FILL: u8 = 170;

pub const DETAIL_FILL: u8 = 85;

// Which parts of an answer are as stored, and how many bytes of both buffers were compared.
#[derive(Clone, Copy)]
pub struct Compared {
    pub fields: bool,
    pub output: bool,
    pub detail: bool,
    pub answer: Answer,
    pub bytes: usize,
}

impl Compared {
    // Whether all of the answer is as stored.
    pub fn same(self) -> bool
        ensures { result ≡ agrees self }
    {
        self.fields & self.output & self.detail
    }
}

// Whether the five stored words are the answer's.
fn same_fields(file: &[u8], at: usize, a: Answer) -> bool
    requires { at ≤ length file.now }
    ensures { result ≡ stored_fields file.now at a }
{
    let function = a.function;
    let second = a.second;
    (words::word_at(file, at) == a.number)
        & (words::word_at(file, at + 4) == function.0)
        & (words::word_at(file, at + 8) == second.0)
        & (words::word_at(file, at + 12) == a.length)
        & (words::word_at(file, at + 16) == a.visits)
}

// The answer's fields and both buffers, as the case has them or not.
pub fn judge(file: &[u8], c: Case, a: Answer, output: &[u8], detail: &[u8]) -> Compared
    requires { (c.fields ≤ length file.now) × (length output.now ≤ 65536) × (length detail.now ≤ 1024) }
    ensures { result ≡ judged file.now c (answer_of a output.now detail.now) (length output.now + length detail.now) }
{
    Compared {
        fields: same_fields(file, c.fields, a),
        output: holds(output, crate::case::bytes(file, c.written), OUTPUT_FILL),
        detail: holds(detail, crate::case::bytes(file, c.told), DETAIL_FILL),
        answer: a,
        bytes: output.len() + detail.len(),
    }
}
