// The signatures that a trait asks of an implementation, in the trait's order.
#![tactic(auto)]

ghost use Rattle.rules.specs.Signatures.{expected_functions};
ghost use Rattle.image_layout.specs.Rows.{Cut};
ghost use Rattle.answers.specs.Answers.{Comes};
ghost use Rattle.expected_functions.specs.Asked.{FunctionsHere, Asked, in_words};
ghost use Rattle.expected_functions.specs.Clauses.{ListsExpected};

use answers::answer::Outcome;
use answers::refusal::Refusal;
use expected_signature::whole::resolve_signature;
use image_layout::Layout;
use rules::ids::NameId;
use subst_params::ROW;

// The functions at `at`, with these type parameters in view. 8 comes before 7.
pub fn expected_list(l: &Layout, at: usize, params: &[u32], out: &mut [u8]) -> Outcome
    requires { Cut l.now × FunctionsHere l.now params.now at }
    ensures { ListsExpected l.now at params.now out.old out.new result }
{
    let pool = l.pool;
    let count = image_words::section_word(pool, at);
    let mut place = answers::output::put(out, 0, count);
    let mut visits = 0;
    let mut next = at + 1;
    for _ in 0..count {
        let Some(f) = resolve_signature(l, next, params, out, place) else {
            let name = NameId(image_words::section_word(pool, next));
            return answers::answer::refused(Refusal::at(8, name));
        };
        if f.poisoned {
            let name = NameId(image_words::section_word(pool, next));
            return answers::answer::refused(Refusal::at(7, name));
        }
        place = f.to;
        visits += f.visits;
        next = f.next;
    }
    answers::answer::accepted(place, visits)
}

// The functions of the trait at `start`, with its type parameters for the type arguments at `types`. 6 where these are not as many.
pub fn expected_functions(l: &Layout, start: usize, types: usize, out: &mut [u8]) -> Outcome
    requires { Cut l.now × Asked l.now start types }
    ensures { (a : Asked l.now start types) → Comes (in_words (expected_functions a.schema a.trait a.impl)) out.old out.new result }
{
    let pool = l.pool;
    let wanted = image_words::section_word(pool, start + 1);
    let given = image_words::section_word(pool, types);
    if wanted != given {
        let name = NameId(image_words::section_word(pool, start));
        return answers::answer::refused(Refusal::counts(name, wanted, given));
    }
    let n = wanted as usize;
    let table = impl_rows::view::view(l, start + 1 + 1, types + 1, n);
    expected_list(l, start + 1 + 1 + n, &table[..ROW * n], out)
}
