// What a Let is asked: whether its name is free, and then whether its value is accepted.
#![tactic(auto)]

ghost use Rattle.project_let_tests.specs.LetTests.{TellsLocal, ChecksValue, ChecksLet};

use answers::answer::Outcome;
use answers::refusal::Refusal;
use infer_result::inferred::Inferred;
use rules::ids::NameId;

// 18: a local in view has this name.
fn no_local(names: &[u32], count: usize, function: NameId, name: NameId) -> Outcome
    ensures { TellsLocal names.now count function name result }
{
    let row = locals::find_local(names, count, name);
    if row < count {
        return answers::answer::refused(Refusal::named(18, function, name));
    }
    answers::answer::accepted(0, 0)
}

// What typing the value came to.
fn check_value(function: NameId, r: Inferred) -> Outcome
    ensures { ChecksValue function r result }
{
    if r.number != 0 {
        return project_outcome::refuse_value(function, r);
    }
    answers::answer::accepted(0, 0)
}

// 18, then what typing the value came to. Both are asked, and then their order tells.
pub fn check_let(
    names: &[u32],
    count: usize,
    function: NameId,
    name: NameId,
    r: Inferred,
) -> Outcome
    ensures { ChecksLet names.now count function name r result }
{
    let free = no_local(names, count, function, name);
    let typed = check_value(function, r);
    project_outcome::first_refusal(free, typed)
}
