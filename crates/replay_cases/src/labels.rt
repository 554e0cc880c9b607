// The labels, one a line in the cases' order.
ghost use Rattle.std.specs.Prelude.{◌≤◌, ◌≡◌, length, nat_eq, position};
ghost use Rattle.replay_cases.specs.Labels.{line_feed, line_end, next_line};

// Where the first line feed is.
fn first_line_feed(rest: &[u8]) -> Option<usize>
    ensures { result ≡ position (nat_eq line_feed) rest.now }
{
    rest.iter().position(|b| *b == b'\n')
}

// Where the line that starts at a place ends.
pub fn end(names: &[u8], start: usize) -> usize
    requires { start ≤ length names.now }
    ensures { (result ≡ line_end names.now start) × (result ≤ length names.now) }
{
    let rest = &names[start..];
    match first_line_feed(rest) {
        Some(i) => start + i,
        None => names.len(),
    }
}

// Where the line behind it starts.
pub fn next(names: &[u8], end: usize) -> usize
    requires { end ≤ length names.now }
    ensures { result ≡ next_line names.now end }
{
    names.len().min(end + 1)
}
