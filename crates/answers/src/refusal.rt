// A refusal: its number, its names, its detail words.
ghost use Rattle.std.specs.Prelude.{◌≡◌, [], ◌∷◌, ◌+◌, ◌<◌, ◌≤◌, length};
ghost use Rattle.rules.specs.Words.{bytes_of, over_start};
ghost use Rattle.rules.specs.Refusal.{refusal, in_function, with_name, with_detail};
ghost use Rattle.type_words.specs.Runs.{held_run};
ghost use Rattle.answers.specs.Refusals.{detail_of, refusal_of, adding};

use rules::ids::NameId;
use type_words::HeldType;

// Words of the longest detail: 6, kind 4, of two types.
pub const DETAIL_WORDS: usize = 131;

// The number is 01's, and its words lie in an array with a count: nothing allocates.
#[derive(Clone, Copy)]
pub struct Refusal {
    pub number: u32,
    pub function: NameId,
    pub second: NameId,
    pub words: [u32; DETAIL_WORDS],
    pub count: usize,
}

impl Refusal {
    // With neither name.
    pub fn alone(number: u32) -> Refusal
        ensures { refusal_of result ≡ refusal number }
    {
        Refusal::named(number, NameId::NONE, NameId::NONE)
    }

    // In a function.
    pub fn at(number: u32, function: NameId) -> Refusal
        ensures { refusal_of result ≡ in_function number function.0 }
    {
        Refusal::named(number, function, NameId::NONE)
    }

    // With a second name.
    pub fn named(number: u32, function: NameId, second: NameId) -> Refusal
        ensures { refusal_of result ≡ with_name number function.0 second.0 }
    {
        Refusal {
            number,
            function,
            second,
            words: [0u32; DETAIL_WORDS],
            count: 0,
        }
    }

    // 6, kind 0: the trait's name, its count of type parameters, the implementation's count of type arguments.
    pub fn counts(function: NameId, expected: u32, found: u32) -> Refusal
        ensures { refusal_of result ≡ with_detail 6 function.0 (0 ∷ expected ∷ found ∷ []) }
    {
        let mut words = [0u32; DETAIL_WORDS];
        words[1] = expected;
        words[2] = found;
        Refusal {
            number: 6,
            function,
            second: NameId::NONE,
            words,
            count: 3,
        }
    }

    // One detail word more.
    pub fn word(mut self, w: u32) -> Refusal
        ensures { length (detail_of self) < 131 → refusal_of result ≡ adding (refusal_of self) (w ∷ []) }
    {
        let n = self.count;
        if DETAIL_WORDS <= n {
            return self;
        }
        self.words[n] = w;
        self.count = n + 1;
        self
    }

    // A type's run behind the detail words.
    pub fn run(self, ty: HeldType) -> Refusal
        ensures { (length (held_run ty) ≤ 64) × (length (detail_of self) + length (held_run ty) ≤ 131 → refusal_of result ≡ adding (refusal_of self) (held_run ty)) }
    {
        let mut r = self;
        for &w in &ty.words[..ty.count()] {
            r = r.word(w);
        }
        r
    }

    // How many detail words there are.
    pub fn size(self) -> usize
        ensures { (result ≡ length (detail_of self)) × (result ≤ 131) }
    {
        self.count.min(DETAIL_WORDS)
    }
}

// Its detail words over the start of the lent detail; the rest stays.
pub fn write_detail(detail: &mut [u8], r: Refusal)
    requires { 576 ≤ length detail.old }
    ensures { detail.new ≡ over_start (bytes_of (detail_of r)) detail.old }
{
    crate::output::put_words(detail, 0, &r.words[..r.size()]);
}
