// The stored cases replayed: five fields and every byte of both buffers of each answer are compared. What differs, the
// edge cases that have names of their own, and how much was compared are told in a lent text.
#![tactic(auto)]

mod asked;
mod cases;
mod tally;

ghost use Rattle.std.specs.Prelude.{◌≤◌, length};
ghost use Rattle.lines.specs.Text.{Tells};
ghost use Rattle.replay_verdict.specs.Replayed.{number_of};
ghost use Rattle.replay_verdict.specs.ReplayText.{total_text, call_text, replay_text};

use call_answer::Call;
use cases::replayed;
use tally::Tally;

// What a file's cases come to.
fn total(text: &mut [u8], at: usize, title: &[u8], t: Result<Tally, u32>) -> usize
    requires { at ≤ length text.old }
    ensures { Tells (total_text title.now t) at result text.old text.new }
{
    match t {
        Ok(tally) => {
            replay_told::files::tally(text, at, title, tally.cases, tally.bytes, tally.differ)
        }
        Err(reached) => replay_told::files::damaged(text, at, reached),
    }
}

// All cases of a call, and what they come to.
fn replay_call(
    file: &[u8],
    names: &[u8],
    call: Call,
    title: &[u8],
    text: &mut [u8],
    at: usize,
) -> usize
    requires { at ≤ length text.old }
    ensures { Tells (call_text file.now names.now (number_of call) title.now) at result text.old text.new }
{
    let r = replayed(file, names, call, text, at);
    total(text, r.place, title, r.total)
}

// Both calls, one behind the other. How much was told; what has no room in the text is cut off.
pub fn replay(file: &[u8], names: &[u8], text: &mut [u8]) -> usize
    ensures { Tells (replay_text file.now names.now) 0 result text.old text.new }
{
    let next = replay_call(file, names, Call::Projection, b"project_impl", text, 0);
    replay_call(
        file,
        names,
        Call::Signatures,
        b"expected_signatures",
        text,
        next,
    )
}
