// The writer of the lent output: it holds the output and the place of the next word. A word that does not fit is not
// written, and the place moves on all the same: over an empty slice a writer only counts.
#![tactic(auto)]

ghost use Rattle.std.specs.Prelude.{◌≡◌, ◌≤◌, ◌+◌, length};
ghost use Rattle.words.specs.Puts.{put};
ghost use Rattle.writer.specs.Moved.{moved_on};

#[derive(Drop)]
pub struct Writer<'a> {
    pub out: &'a mut [u8],
    pub next: usize,
}

// A writer over a lent output, from a place on.
pub fn at<'a>(out: &'a mut [u8], next: usize) -> Writer<'a>
    ensures { (result.out ≡ out.entry) × (result.next ≡ next) }
{
    Writer { out, next }
}

// A word at a place, if it ends inside the slice, and the place behind it. A writer's words are written here.
pub fn put_at(out: &mut [u8], at: usize, w: u32) -> usize
    requires { at ≤ 1000000000 }
    ensures { (result ≡ at + 4) × (out.new ≡ put (length out.old) at w out.old) }
{
    let room = out.len();
    words::put_word(out, room, at, w)
}

// A word through a writer, which goes back to its caller with the output and the next place.
pub fn put<'a>(w: Writer<'a>, x: u32) -> Writer<'a>
    requires { w.next ≤ 1000000000 }
    ensures { result ≡ moved_on w.entry x }
{
    let next = w.next;
    let after = put_at(&mut *w.out, next, x);
    Writer {
        out: w.out,
        next: after,
    }
}

// Where a writer has come to. The writer is given up, its output as it is.
pub fn place<'a>(w: Writer<'a>) -> usize
    ensures { (result ≡ w.entry.next) × (w.exit.0.now ≡ w.entry.out.now) }
{
    w.next
}

// One word: slice and place in, next place out, so that no caller holds a writer.
pub fn write(out: &mut [u8], to: usize, x: u32) -> usize
    requires { to ≤ 1000000000 }
    ensures { (result ≡ to + 4) × (out.new ≡ put (length out.old) to x out.old) }
{
    let w = at(out, to);
    let next = w.next;
    put_at(w.out, next, x)
}

// Two words, one behind the other, through one writer.
pub fn write_two(out: &mut [u8], to: usize, x: u32, y: u32) -> usize
    requires { to ≤ 999999996 }
    ensures { (result ≡ to + 8) × (out.new ≡ put (length out.old) (to + 4) y (put (length out.old) to x out.old)) }
{
    let w = at(out, to);
    let next = w.next;
    let after = put_at(&mut *w.out, next, x);
    put_at(w.out, after, y)
}
