// Reading to the end.
ghost use Rattle.std.specs.Prelude.{◌≡◌, length, IfOk, IfSome};
ghost use Rattle.io.specs.Counts.{IsPrefixLen};

use std::fs;
use std::io::Read;
use std::rt::Files;

// Reads until the input ends or the bytes are full. A failed read is the error; what came before it may stand in the bytes.
pub fn fill<R: Read>(input: &mut R, bytes: &mut [u8]) -> std::io::Result<usize>
    ensures came { IfOk result (λ n. IsPrefixLen n bytes.new) }
    ensures kept { length bytes.new ≡ length bytes.old }
{
    let mut n = 0;
    while n < bytes.len() {
        let more = input.read(&mut bytes[n..])?;
        if more == 0 {
            return Ok(n);
        }
        n += more;
    }
    Ok(n)
}

// The same where a failed read is told apart from the end, and its reason does not matter.
pub fn read_to_end<R: Read>(input: &mut R, bytes: &mut [u8]) -> Option<usize>
    ensures came { IfSome result (λ n. IsPrefixLen n bytes.new) }
    ensures kept { length bytes.new ≡ length bytes.old }
{
    fill(input, bytes).ok()
}

// Reads a whole file. None where it cannot be opened or read, or fills the bytes and so may be longer. A path that is no text
// names no file here: std opens files by text.
pub fn read_file<R: Files>(rt: &R, path: &[u8], bytes: &mut [u8]) -> Option<usize>
    ensures came { IfSome result (λ n. IsPrefixLen n bytes.new) }
    ensures kept { length bytes.new ≡ length bytes.old }
{
    let path = std::str::from_utf8(path).ok()?;
    let mut file = fs::open(rt, path).ok()?;
    let len = read_to_end(&mut file, bytes)?;
    if len < bytes.len() { Some(len) } else { None }
}
