// What was compared, counted.
ghost use Rattle.std.specs.Prelude.{◌+◌, ◌<◌, ◌^◌, ◌≡◌};
ghost use Rattle.replay_verdict.specs.Replayed.{tallied, none_yet};

use replay_cases::verdict::Compared;

// What was compared, and how many cases differ.
#[derive(Clone, Copy)]
pub struct Tally {
    pub cases: u32,
    pub bytes: usize,
    pub differ: u32,
}

// Nothing yet.
pub fn none() -> Tally
    ensures { result ≡ none_yet }
{
    Tally {
        cases: 0,
        bytes: 0,
        differ: 0,
    }
}

// A case counted.
pub fn counted(t: Tally, c: Compared) -> Tally
    requires { (t.cases < 4294967295) × (t.bytes + c.bytes < 2 ^ 64) × (t.differ < 4294967295) }
    ensures { result ≡ tallied t c }
{
    let more = if c.same() { 0 } else { 1 };
    Tally {
        cases: t.cases + 1,
        bytes: t.bytes + c.bytes,
        differ: t.differ + more,
    }
}
