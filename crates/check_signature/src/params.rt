// A function's parameters in the pool against the expected ones in the table.
ghost use Rattle.std.specs.Prelude.{◌≡◌, get_or};
ghost use Rattle.check_signature.specs.Clauses.{ChecksParams};

use answers::answer::Outcome;
use image_layout::Layout;
use rules::ids::NameId;

// The name in a row of the table, 0 past its end.
fn name_at(names: &[u32], i: usize) -> NameId
    ensures { result.0 ≡ get_or names.now i 0 }
{
    if names.len() <= i {
        return NameId(0);
    }
    NameId(names[i])
}

// The parameters from `at` on against the rows of the table, which are as many.
pub fn check_params(
    l: &Layout,
    at: usize,
    function: NameId,
    names: &[u32],
    words: &[u32],
    lens: &[u32],
    count: usize,
) -> Outcome
    ensures { ChecksParams l.now at function names.now words.now lens.now count result }
{
    let pool = l.pool;
    let mut next = at;
    for i in 0..count {
        let found = NameId(image_words::section_word(pool, next));
        let place = image_words::after(pool, next);
        let h = type_from_pool::hold_type(l, place);
        let actual = h.ty;
        let wanted = name_at(names, i);
        let expected = locals::local_type(words, lens, i);
        let r = check_types::check_param(function, wanted, expected, found, actual);
        if !r.ok {
            return r;
        }
        next = h.next;
    }
    answers::answer::accepted(0, 0)
}
