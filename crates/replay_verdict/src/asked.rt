// A case asked again, and its answer compared.
ghost use Rattle.std.specs.Prelude.{◌≤◌, ◌≡◌, length};
ghost use Rattle.answers.specs.Answers.{answer_of};
ghost use Rattle.call_answer.specs.Calls.{answer_for};
ghost use Rattle.replay_cases.specs.Cases.{Askable};
ghost use Rattle.replay_verdict.specs.Replayed.{number_of, which_call, compared};
ghost use Rattle.replay_verdict.specs.Clauses.{Judges};

use answers::answer::Answer;
use call_answer::Call;
use replay_cases::case::{Case, MOST_DETAIL, MOST_OUTPUT};
use replay_cases::verdict::{Compared, DETAIL_FILL, OUTPUT_FILL};
use rules::ids::TypeId;

// A call as the file names it.
pub fn number_of(call: Call) -> u32
    ensures { result ≡ number_of call }
{
    match call {
        Call::Projection => 0,
        Call::Signatures => 1,
    }
}

// The call that the file's number names: any but the first's is taken for the second.
fn which_call(number: u32) -> Call
    ensures { result ≡ which_call number }
{
    if number == 0 {
        Call::Projection
    } else {
        Call::Signatures
    }
}

// By the public call that is meant.
fn answer(call: Call, image: &[u8], row: TypeId, output: &mut [u8], detail: &mut [u8]) -> Answer
    ensures { answer_of result output.new detail.new ≡ answer_for call image.now row.0 output.old detail.old }
{
    match call {
        Call::Projection => portable::project_impl(image, row, output, detail),
        Call::Signatures => portable::expected_signatures(image, row, output, detail),
    }
}

// Asks with the two lent buffers.
fn ask(file: &[u8], c: Case, output: &mut [u8], detail: &mut [u8]) -> Compared
    requires { (c.fields ≤ length file.now) × (length output.old ≤ 65536) × (length detail.old ≤ 1024) }
    ensures { Judges file.now c output.old detail.old result }
{
    let image = replay_cases::case::bytes(file, c.image);
    let call = which_call(c.call);
    let a = answer(call, image, c.row, output, detail);
    replay_cases::verdict::judge(file, c, a, output, detail)
}

// Asks the case anew in buffers of its lengths.
pub fn compare(file: &[u8], c: Case) -> Compared
    requires { Askable file.now c }
    ensures { result ≡ compared file.now c }
{
    let mut output = [OUTPUT_FILL; MOST_OUTPUT];
    let mut detail = [DETAIL_FILL; MOST_DETAIL];
    let n = c.output;
    let m = c.detail;
    ask(file, c, &mut output[..n], &mut detail[..m])
}
