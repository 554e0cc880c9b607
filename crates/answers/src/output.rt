// Words written one behind the other, each only where it ends inside the slice.
ghost use Rattle.std.specs.Prelude.{[], ◌∷◌, ◌≤◌, length};
ghost use Rattle.type_words.specs.Runs.{held_run};
ghost use Rattle.answers.specs.Writes.{Writes};

use type_words::HeldType;

// Writes some words, and says where the next goes.
pub fn put_words(out: &mut [u8], at: usize, run: &[u32]) -> usize
    requires { (at ≤ 900000000) × (length run.now ≤ 1000) }
    ensures { Writes run.now at result out.old out.new }
{
    let mut next = at;
    for &w in run {
        next = writer::write(out, next, w);
    }
    next
}

// One word.
pub fn put(out: &mut [u8], at: usize, w: u32) -> usize
    requires { at ≤ 900000000 }
    ensures { Writes (w ∷ []) at result out.old out.new }
{
    writer::write(out, at, w)
}

// A type's run.
pub fn put_type(out: &mut [u8], at: usize, ty: HeldType) -> usize
    requires { at ≤ 900000000 }
    ensures { Writes (held_run ty) at result out.old out.new }
{
    put_words(out, at, &ty.words[..ty.count()])
}
