// An implementation, its trait and its message, found in the pool.
ghost use Rattle.image_layout.specs.Rows.{Cut};
ghost use Rattle.expected_functions.specs.Asked.{Asked};
ghost use Rattle.project_impl.specs.Asked.{Wanted};
ghost use Rattle.project_impl.specs.Clauses.{ProjectsTested, ProjectsFound};

use answers::answer::Outcome;
use image_layout::Layout;
use project_functions::list::project_list;
use project_functions::parts::Parts;
use subst_params::ROW;

// 9, then 10, then each function: of the trait at `start` with the type arguments at `types`, whose signatures are accepted.
// One walk finds the places of the functions, for all three; the names and the functions are asked, and then their order tells.
// The functions are gone through by the trait's names.
fn project_tested(l: &Layout, start: usize, types: usize, parts: Parts, out: &mut [u8]) -> Outcome
    requires { Cut l.now × Wanted l.now start types }
    ensures { ProjectsTested l.now start types parts out.old out.new result }
{
    let pool = l.pool;
    let n = image_words::section_word(pool, start + 1) as usize;
    let asked = start + 1 + 1 + n;
    let functions = project_functions::parts::functions_start(l, types);
    let found = impl_functions::table::function_places(l, functions);
    let count = impl_functions::names::few(image_words::section_word(pool, functions));
    let places = &found[..count];
    let own = impl_functions::names::own_names(l, places);
    let wanted = impl_functions::names::function_names(l, asked);
    let tests = impl_name_tests::check_names(l, asked, places, &own[..count]);
    let table = impl_rows::view::view(l, start + 1 + 1, types + 1, n);
    let params = &table[..ROW * n];
    let limit = out.len();
    let listed = project_list(l, asked, &wanted, params, places, parts, out, limit, 0);
    let r = project_outcome::first_refusal(tests, listed);
    if !r.ok {
        return r;
    }
    answers::answer::accepted(listed.length, 0)
}

// 6, 8 and 7 of the trait at `start` come before 9 and 10; the message's fields stand at `fields`, the target type at `target`.
pub fn project_found(
    l: &Layout,
    start: usize,
    types: usize,
    fields: usize,
    target: usize,
    out: &mut [u8],
) -> Outcome
    requires { Cut l.now × Asked l.now start types }
    ensures { ProjectsFound l.now start types fields target out.old out.new result }
{
    let e = expected_functions::expected_functions(l, start, types, &mut out[..0]);
    if !e.ok {
        return e;
    }
    let parts = Parts { fields, target };
    let p = project_tested(l, start, types, parts, out);
    if !p.ok {
        return p;
    }
    answers::answer::accepted(p.length, e.visits)
}
