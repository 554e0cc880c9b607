// The cases of a call, one after the other: each asked, counted and told by its label.
ghost use Rattle.std.specs.Prelude.{◌<◌, ◌≤◌, ◌^◌, ◌≡◌, length};
ghost use Rattle.replay_cases.specs.Cases.{Askable};
ghost use Rattle.replay_verdict.specs.Replayed.{number_of, came};
ghost use Rattle.replay_verdict.specs.Clauses.{Steps, Replays};

use crate::asked;
use crate::tally::{Tally, counted, none};
use call_answer::Call;
use replay_cases::case::Case;
use replay_cases::{case, labels};

// The tally so far, and the place behind what is told.
#[derive(Clone, Copy)]
pub struct Step {
    pub tally: Tally,
    pub place: usize,
}

// What the cases come to, or at which of them it is seen that the file is not whole; and the place behind what is told of them.
#[derive(Clone, Copy)]
pub struct Told {
    pub total: Result<Tally, u32>,
    pub place: usize,
}

// One case, compared and told, where it is of the call that is replayed.
fn one(file: &[u8], label: &[u8], c: Case, call: Call, s: Step, text: &mut [u8]) -> Step
    requires { Askable file.now c × (s.tally.cases < 4294967295) × (s.tally.bytes < 2 ^ 63) × (s.tally.differ < 4294967295) × (s.place ≤ length text.old) }
    ensures { Steps file.now label.now c (number_of call) s text.old text.new result }
{
    if c.call != asked::number_of(call) {
        return s;
    }
    let compared = asked::compare(file, c);
    let place = replay_told::case::tell(text, s.place, label, compared);
    let t = s.tally;
    Step {
        tally: counted(t, compared),
        place,
    }
}

// What all cases come to, where the file ends behind the last of them.
fn came(whole: bool, tally: Tally, count: u32) -> Result<Tally, u32>
    ensures { result ≡ came whole tally count }
{
    if whole { Ok(tally) } else { Err(count) }
}

// All cases of a call, told by their labels.
pub fn replayed(file: &[u8], names: &[u8], call: Call, text: &mut [u8], start: usize) -> Told
    requires { start ≤ length text.old }
    ensures { Replays file.now names.now (number_of call) start text.old text.new result }
{
    let count = words::word_at(file, 0);
    let mut s = Step {
        tally: none(),
        place: start,
    };
    let mut at = file.len().min(4);
    let mut name: usize = 0;
    for i in 0..count {
        let Some(c) = case::read(file, at) else {
            return Told {
                total: Err(i),
                place: s.place,
            };
        };
        let end = labels::end(names, name);
        s = one(file, &names[name..end], c, call, s, text);
        at = c.next;
        name = labels::next(names, end);
    }
    Told {
        total: came(at == file.len(), s.tally, count),
        place: s.place,
    }
}
