// A call's answer, made of what its first pass came to: that pass writes into a buffer of our own, since a refusal leaves the output as found.
#![tactic(auto)]

ghost use Rattle.std.specs.Prelude.{◌≡◌, true, ◌<◌, ◌≤◌, ◌++◌, length, take, drop};
ghost use Rattle.call_finish.specs.Ends.{Ends};

use answers::answer::{Answer, Outcome};

// The first n bytes over the output's start.
fn copy_start(first: &[u8], output: &mut [u8], n: usize)
    requires { (n ≤ length first.now) × (n ≤ length output.old) }
    ensures { output.new ≡ take n first.now ++ drop n output.old }
{
    output[..n].copy_from_slice(&first[..n]);
}

// The answer, where the first pass came to m with its words in `first` as far as they fit it. None, where they fit the output and not
// `first`: a second pass writes them.
pub fn finish(m: Outcome, first: &[u8], output: &mut [u8], detail: &mut [u8]) -> Option<Answer>
    requires { (576 ≤ length detail.old) × (m.ok ≡ true → m.length < 4294967296) }
    ensures { Ends m first.now output.old output.new detail.old detail.new result }
{
    if !m.ok {
        let r = m.refusal;
        return Some(answers::answer::refuse(detail, r));
    }
    let n = m.length;
    if output.len() < n {
        return Some(answers::answer::too_short(n as u32));
    }
    if first.len() < n {
        return None;
    }
    copy_start(first, output, n);
    Some(answers::answer::accept(n as u32, m.visits))
}
