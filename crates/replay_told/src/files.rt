// What is told of the files: how much was compared, or that a file is not as it should be.
ghost use Rattle.std.specs.Prelude.{◌≤◌, ◌++◌, length};
ghost use Rattle.lines.specs.Text.{Tells};
ghost use Rattle.lines.specs.Decimal.{decimal};
ghost use Rattle.replay_told.specs.Told.{unread_text, damaged_text, tally_text};

use lines::text::{put_bytes, put_decimal};

// A file that could not be read, or is longer than there is room for.
pub fn unread(text: &mut [u8]) -> usize
    ensures { Tells unread_text 0 result text.old text.new }
{
    put_bytes(
        text,
        0,
        b"DAMAGED: cases.bin or labels.txt cannot be read, or is too long\n",
    )
}

// A number, and what stands behind it.
fn count(text: &mut [u8], at: usize, n: u64, behind: &[u8]) -> usize
    requires { at ≤ length text.old }
    ensures { Tells (decimal n ++ behind.now) at result text.old text.new }
{
    let next = put_decimal(text, at, n);
    put_bytes(text, next, behind)
}

// The file ends inside a case, or goes on behind the last; or a case lends more than there is room for.
pub fn damaged(text: &mut [u8], at: usize, reached: u32) -> usize
    requires { at ≤ length text.old }
    ensures { Tells (damaged_text reached) at result text.old text.new }
{
    let next = put_bytes(
        text,
        at,
        b"DAMAGED: the file of cases is not as long as it says, or lends more than there is room for, at case ",
    );
    count(text, next, reached as u64, b"\n")
}

// What was compared of a call.
pub fn tally(
    text: &mut [u8],
    at: usize,
    title: &[u8],
    cases: u32,
    bytes: usize,
    differ: u32,
) -> usize
    requires { at ≤ length text.old }
    ensures { Tells (tally_text title.now cases bytes differ) at result text.old text.new }
{
    let first = put_bytes(text, at, title);
    let second = put_bytes(text, first, b": ");
    let third = count(text, second, cases as u64, b" cases, all fields, ");
    let fourth = count(text, third, bytes as u64, b" bytes of both buffers; ");
    count(text, fourth, differ as u64, b" differ\n")
}
