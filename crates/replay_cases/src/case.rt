// A stored case: twelve words, then the bytes of the image, of the output and of the detail (vectors/README.md).
ghost use Rattle.std.specs.Prelude.{◌≡◌, ◌+◌, ◌≤◌, ◌<◌, ◌^◌, length, take, drop};
ghost use Rattle.words.specs.Words.{word_at};
ghost use Rattle.replay_cases.specs.Cases.{ReadsCase};

use rules::ids::TypeId;

// The most that a replay lends.
pub const MOST_OUTPUT: usize = 65536;

pub const MOST_DETAIL: usize = 1024;

// Bytes of the file.
#[derive(Clone, Copy)]
pub struct Part {
    pub start: usize,
    pub size: usize,
}

// A case by its places in the file. Each part is a place and a size, not a slice: so a case is its words, and `case_at` one equation.
#[derive(Clone, Copy)]
pub struct Case {
    pub call: u32,
    pub row: TypeId,
    pub output: usize,
    pub detail: usize,
    pub fields: usize,
    pub image: Part,
    pub written: Part,
    pub told: Part,
    pub next: usize,
}

// One of the case's words.
fn word(file: &[u8], at: usize, k: usize) -> u32
    requires { (at ≤ length file.now) × (k ≤ 44) }
    ensures { result ≡ word_at file.now (at + k) }
{
    words::word_at(file, at + k)
}

// One that is a length.
fn size(file: &[u8], at: usize, k: usize) -> usize
    requires { (at ≤ length file.now) × (k ≤ 44) }
    ensures { (result ≡ word_at file.now (at + k)) × (result < 2 ^ 32) }
{
    word(file, at, k) as usize
}

// The case at a place, where all of it lies inside the file and no more is lent than a replay has. Its sizes are words, so no sum here
// wraps; a word past the file's end counts as 0, and then the case does not end inside the file.
pub fn read(file: &[u8], at: usize) -> Option<Case>
    requires { at ≤ length file.now }
    ensures { ReadsCase file.now at result }
{
    let image = size(file, at, 16);
    let written = size(file, at, 40);
    let told = size(file, at, 44);
    let first = at + 48;
    let second = first + image;
    let third = second + written;
    let next = third + told;
    if file.len() < next {
        return None;
    }
    let output = size(file, at, 8);
    if MOST_OUTPUT < output {
        return None;
    }
    let detail = size(file, at, 12);
    if MOST_DETAIL < detail {
        return None;
    }
    Some(Case {
        call: words::word_at(file, at),
        row: TypeId(word(file, at, 4)),
        output,
        detail,
        fields: at + 20,
        image: Part {
            start: first,
            size: image,
        },
        written: Part {
            start: second,
            size: written,
        },
        told: Part {
            start: third,
            size: told,
        },
        next,
    })
}

// A part's bytes; as many of them as there are, where it does not end in the file.
pub fn bytes(file: &[u8], p: Part) -> &[u8]
    ensures { result.now ≡ take p.size (drop p.start file.now) }
{
    let start = p.start;
    let size = p.size;
    if file.len() < start {
        return &file[..0];
    }
    let rest = &file[start..];
    if rest.len() < size {
        return rest;
    }
    &rest[..size]
}
