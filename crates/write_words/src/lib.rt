// Words written below a limit: one, two, a held type's, some of the pool's. None asks where it starts: past a billion nothing is promised.
#![tactic(auto)]

ghost use Rattle.std.specs.Prelude.{◌≡◌, List, [], ◌∷◌, ℕ, ◌≤◌, length};
ghost use Rattle.type_words.specs.Runs.{Runs};
ghost use Rattle.image_layout.specs.Open.{pool_words};
ghost use Rattle.image_words.specs.Stands.{Stands};
ghost use Rattle.write_words.specs.Written.{Written};

use image_layout::Layout;
use type_words::HeldType;

const FAR: usize = 1000000000;

// Past it a second word would start past FAR.
const FAR_FOR_TWO: usize = FAR - 4;

// One word, and where the next goes.
pub fn put(out: &mut [u8], limit: usize, to: usize, w: u32) -> usize
    requires { limit ≤ length out.old }
    ensures { Written limit to (w ∷ []) out.old result out.new }
{
    if FAR < to {
        return to;
    }
    writer::write(&mut out[..limit], to, w)
}

// Two words through one writer, and where the next goes.
pub fn put_two(out: &mut [u8], limit: usize, to: usize, v: u32, w: u32) -> usize
    requires { limit ≤ length out.old }
    ensures { Written limit to (v ∷ w ∷ []) out.old result out.new }
{
    if FAR_FOR_TWO < to {
        return to;
    }
    writer::write_two(&mut out[..limit], to, v, w)
}

// A type's run.
pub fn put_type(out: &mut [u8], limit: usize, to: usize, ty: HeldType) -> usize
    requires { limit ≤ length out.old }
    ensures { (ws : List ℕ) → Runs ty ws → Written limit to ws out.old result out.new }
{
    let n = ty.count();
    let mut next = to;
    for i in 0..n {
        next = put(out, limit, next, ty.word(i));
    }
    next
}

// So many words of the pool.
pub fn put_words(
    l: &Layout,
    at: usize,
    count: usize,
    out: &mut [u8],
    limit: usize,
    to: usize,
) -> usize
    requires { limit ≤ length out.old }
    ensures { (ws : List ℕ) (n : ℕ) → Stands (pool_words l.now) ws at n → length ws ≡ count → Written limit to ws out.old result out.new }
{
    let pool = l.pool;
    let mut from = at;
    let mut next = to;
    for _ in 0..count {
        next = put(out, limit, next, image_words::section_word(pool, from));
        from = image_words::after(pool, from);
    }
    next
}
