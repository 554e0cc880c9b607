// Whether a text is well-formed UTF-8: one walk over its bytes, which holds what is due of the character begun.
#![tactic(auto)]

ghost use Rattle.std.specs.Prelude.{◌≡◌, ◌≤◌, length};
ghost use Rattle.std.proofs.Math.Option.{none, some};
ghost use Rattle.rules.specs.Utf8.{follow, well_formed};
ghost use Rattle.utf8.specs.Due.{ranges, due_of, Tells, after};
ghost use Rattle.utf8.specs.Ascii.{ascii_to, Begins};

// What is due of a character: so many bytes, the next one from `least` to `most`, those behind it from 80 to BF. Where none is left, the
// range is of no matter.
#[derive(Clone, Copy)]
pub struct Due {
    pub left: usize,
    pub least: u8,
    pub most: u8,
}

// So many bytes, the next one in a range.
fn due_bytes(left: usize, least: u8, most: u8) -> Option<Due>
    ensures { Tells (some (ranges left least most)) result }
{
    Some(Due { left, least, most })
}

// What must follow a character's first byte: table 3-7, by ascending bytes. Nothing, where no character begins so.
// No `match` of its ranges: tried, it took a text of two-byte characters a sixth longer, and of ASCII a third.
fn begin(first: u8) -> Option<Due>
    ensures { Tells (follow first) result }
{
    if first < 0x80 {
        return due_bytes(0, 0x80, 0xBF);
    }
    if first < 0xC2 {
        return None;
    }
    if first < 0xE0 {
        return due_bytes(1, 0x80, 0xBF);
    }
    if first < 0xE1 {
        return due_bytes(2, 0xA0, 0xBF);
    }
    if first < 0xED {
        return due_bytes(2, 0x80, 0xBF);
    }
    if first < 0xEE {
        return due_bytes(2, 0x80, 0x9F);
    }
    if first < 0xF0 {
        return due_bytes(2, 0x80, 0xBF);
    }
    if first < 0xF1 {
        return due_bytes(3, 0x90, 0xBF);
    }
    if first < 0xF4 {
        return due_bytes(3, 0x80, 0xBF);
    }
    if first < 0xF5 {
        return due_bytes(3, 0x80, 0x8F);
    }
    None
}

// What is due behind one byte more. Nothing, where no character has it there.
fn next_due(d: Due, byte: u8) -> Option<Due>
    ensures { Tells (after (due_of d) byte) result }
{
    if d.left == 0 {
        return begin(byte);
    }
    if (d.least..=d.most).contains(&byte) {
        return due_bytes(d.left - 1, 0x80, 0xBF);
    }
    None
}

// Whether the first eight bytes are ASCII: one test, with no early end as `all` would have after each byte.
fn eight_ascii(text: &[u8]) -> bool
    requires { 8 ≤ length text.now }
    ensures { result ≡ ascii_to 8 text.now }
{
    (text[0] < 0x80)
        & (text[1] < 0x80)
        & (text[2] < 0x80)
        & (text[3] < 0x80)
        & (text[4] < 0x80)
        & (text[5] < 0x80)
        & (text[6] < 0x80)
        & (text[7] < 0x80)
}

// Where the walk may begin: behind eights of ASCII at the start, which are most of most texts. The answer is a place, so an iterator over
// the eights would have to be counted beside.
fn behind_ascii(text: &[u8]) -> usize
    ensures { Begins text.now result }
{
    let n = text.len();
    let mut i = 0;
    while 8 <= n - i {
        if !eight_ascii(&text[i..]) {
            return i;
        }
        i += 8;
    }
    i
}

// Whole characters from the text's start to its end.
pub fn well_formed(text: &[u8]) -> bool
    ensures { result ≡ well_formed text.now }
{
    let mut d = Due {
        left: 0,
        least: 0x80,
        most: 0xBF,
    };
    for byte in &text[behind_ascii(text)..] {
        let Some(next) = next_due(d, *byte) else {
            return false;
        };
        d = next;
    }
    d.left == 0
}
