// What comes of a part of a projection: a refusal, or words written.
#![tactic(auto)]

ghost use Rattle.std.specs.Prelude.{◌≡◌, false};
ghost use Rattle.answers.specs.Refusals.{refusal_of};
ghost use Rattle.infer_result.specs.Says as says;
ghost use Rattle.project_outcome.specs.Outcomes.{FirstRefusal};

use answers::answer::Outcome;
use answers::refusal::Refusal;
use infer_result::inferred::Inferred;
use rules::ids::NameId;

// The refusal that came of typing an expression in a function.
pub fn refuse_value(function: NameId, r: Inferred) -> Outcome
    ensures { (result.ok ≡ false) × (refusal_of result.refusal ≡ says.refusal_of function.0 r) }
{
    let e = Refusal::named(r.number, function, r.second);
    if r.number == 20 {
        return answers::answer::refused(e.word(r.word).run(r.wanted).run(r.ty));
    }
    if r.number == 21 {
        return answers::answer::refused(e.word(r.word).run(r.ty));
    }
    answers::answer::refused(e)
}

// Of two tests, in this order: the refusal of the first, else what the second came to.
pub fn first_refusal(a: Outcome, b: Outcome) -> Outcome
    ensures { FirstRefusal a b result }
{
    if !a.ok {
        return a;
    }
    b
}
