// What a call gives back beside its two lent buffers.
ghost use Rattle.std.specs.Prelude.{◌≤◌, ◌≡◌, true, false, length};
ghost use Rattle.answers.specs.Refusals.{refusal_of};
ghost use Rattle.answers.specs.Answers.{Refuses, RefusesAlone, AcceptsAll, TooShort, Unnamed};

use crate::refusal::Refusal;
use rules::ids::NameId;

// The length is in bytes: written, or needed under 24. Number and fields stay as 01 has them, and as the C interface puts them in a block.
#[derive(Clone, Copy)]
pub struct Answer {
    pub number: u32,
    pub function: NameId,
    pub second: NameId,
    pub length: u32,
    pub visits: u32,
}

// What a call on a readable image comes to before it is answered: a refusal, or so many bytes and visits.
#[derive(Clone, Copy)]
pub struct Outcome {
    pub ok: bool,
    pub refusal: Refusal,
    pub length: usize,
    pub visits: u32,
}

// A call's refusal.
pub fn refused(r: Refusal) -> Outcome
    ensures { (result.ok ≡ false) × (result.refusal ≡ r) }
{
    Outcome {
        ok: false,
        refusal: r,
        length: 0,
        visits: 0,
    }
}

// A call's bytes and visits.
pub fn accepted(length: usize, visits: u32) -> Outcome
    ensures { (result.ok ≡ true) × (result.length ≡ length) × (result.visits ≡ visits) }
{
    Outcome {
        ok: true,
        refusal: Refusal::alone(0),
        length,
        visits,
    }
}

// A refusal with no names, which writes nothing.
pub fn alone(number: u32) -> Answer
    ensures { RefusesAlone result number }
{
    unnamed(number, 0, 0)
}

// A refusal: it writes its detail words, and leaves the output as found.
pub fn refuse(detail: &mut [u8], r: Refusal) -> Answer
    requires { 576 ≤ length detail.old }
    ensures { Refuses result (refusal_of r) detail.old detail.new }
{
    crate::refusal::write_detail(detail, r);
    Answer {
        number: r.number,
        function: r.function,
        second: r.second,
        length: 0,
        visits: 0,
    }
}

// 24: so many bytes are needed.
pub fn too_short(length: u32) -> Answer
    ensures { TooShort result length }
{
    unnamed(24, length, 0)
}

// So many bytes are written.
pub fn accept(length: u32, visits: u32) -> Answer
    ensures { AcceptsAll result length visits }
{
    unnamed(0, length, visits)
}

// An answer that names no function.
fn unnamed(number: u32, length: u32, visits: u32) -> Answer
    ensures { Unnamed result number length visits }
{
    Answer {
        number,
        function: NameId::NONE,
        second: NameId::NONE,
        length,
        visits,
    }
}
