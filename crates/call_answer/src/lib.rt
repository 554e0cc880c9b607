// The calls: one code for all of them, told which is asked.
#![tactic(auto)]

ghost use Rattle.std.specs.Prelude.{◌≡◌, ◌≤◌, length};
ghost use Rattle.rules.specs.Syntax.{CompiledSchema};
ghost use Rattle.image_layout.specs.Rows.{Cut};
ghost use Rattle.image_layout.specs.Open.{Open};
ghost use Rattle.image_layout.specs.Opens.{Opens};
ghost use Rattle.answers.specs.Answers.{answer_of, Comes};
ghost use Rattle.impl_trait.specs.Subjects.{About};
ghost use Rattle.call_answer.specs.Calls.{call_of, answer_for};
ghost use Rattle.call_answer.specs.Clauses.{ComesAfterSubject, AnswersReadable};

use answers::answer::{Answer, Outcome};
use answers::refusal::Refusal;
use image_layout::Layout;
use impl_trait::Subject;
use rules::ids::{NameId, TypeId};

#[derive(Clone, Copy)]
pub enum Call {
    Signatures,
    Projection,
}

// What comes behind 3 and 4.
fn after_subject(call: Call, l: &Layout, f: Subject, out: &mut [u8]) -> Outcome
    requires { Cut l.now × About l.now f }
    ensures { ComesAfterSubject call l.now f out.old out.new result }
{
    match call {
        Call::Signatures => expected_functions::expected_functions(l, f.start, f.types, out),
        Call::Projection => project_impl::project(l, f, out),
    }
}

// The call's words, as far as they fit.
fn pass(call: Call, l: &Layout, number: TypeId, out: &mut [u8]) -> Outcome
    requires { Cut l.now × Opens l.now }
    ensures { (s : CompiledSchema) → Open l.now s → Comes (call_of call number.0 s) out.old out.new result }
{
    match impl_trait::find_subject(l, number) {
        Ok(f) => after_subject(call, l, f, out),
        Err(none) => answers::answer::refused(Refusal::named(
            none.number(),
            NameId::NONE,
            none.name(),
        )),
    }
}

// Bytes that the first pass keeps: what most outputs need.
const FIRST_PASS: usize = 16384;

// The answer on a readable image. The first pass keeps its words; where they are too many for that, a second one writes them.
fn answer_readable(
    call: Call,
    l: &Layout,
    number: TypeId,
    output: &mut [u8],
    detail: &mut [u8],
) -> Answer
    requires { Cut l.now × Opens l.now × (576 ≤ length detail.old) }
    ensures { AnswersReadable call l.now number output.old output.new detail.old detail.new result }
{
    let mut first = [0u8; FIRST_PASS];
    let m = pass(call, l, number, &mut first);
    if let Some(answer) = call_finish::finish(m, &first, output, detail) {
        return answer;
    }
    let w = pass(call, l, number, output);
    answers::answer::accept(w.length as u32, w.visits)
}

// Either call, on every image: 1 and 2 come first.
pub fn answer(
    call: Call,
    image: &[u8],
    number: TypeId,
    output: &mut [u8],
    detail: &mut [u8],
) -> Answer
    ensures { answer_of result output.new detail.new ≡ answer_for call image.now number.0 output.old detail.old }
{
    match call_open::look(image, detail.len()) {
        Ok(l) => answer_readable(call, &l, number, output, detail),
        Err(closed) => answers::answer::alone(closed.number()),
    }
}
