// Whether a list of types, or of names with their types, stands in the pool, as the rules read it: one code, told which item is listed.
#![tactic(auto)]

ghost use Rattle.rules.specs.Reader.{many};
ghost use Rattle.rules.specs.ReadTypes.{param};
ghost use Rattle.image_words.specs.Verdict.{section_words, Says};
ghost use Rattle.pool_lists.specs.Items.{typed, item_reader};

// How a type stands there.
#[derive(Clone, Copy)]
pub enum Form {
    Resolved,
    Expression,
}

// A resolved type; a name, and its type.
#[derive(Clone, Copy)]
pub enum Item {
    Type,
    Named(Form),
}

// A name and its type.
#[tactic(auto, using(image_words::proofs::Says::steps), unfolding(rules::specs::ReadTypes::param))]
fn check_named(form: Form, pool: &[u8], at: usize, names: u32) -> Option<usize>
    ensures { Says (param names (typed form names)) (section_words pool.now) at result }
{
    let ty = image_words::check_below(pool, at, names)?;
    match form {
        Form::Resolved => pool_types::resolved::check_type(pool, ty, names),
        Form::Expression => pool_type_exprs::check_type_expr(pool, ty, names),
    }
}

// One item.
fn check_item(item: Item, pool: &[u8], at: usize, names: u32) -> Option<usize>
    ensures { Says (item_reader item names) (section_words pool.now) at result }
{
    match item {
        Item::Type => pool_types::resolved::check_type(pool, at, names),
        Item::Named(form) => check_named(form, pool, at, names),
    }
}

// A count, at most `most`, and so many items: type arguments, fields, parameters.
#[tactic(auto, using(image_words::proofs::Loops::turns))]
pub fn check_items(item: Item, pool: &[u8], at: usize, names: u32, most: u32) -> Option<usize>
    ensures { Says (many most (item_reader item names)) (section_words pool.now) at result }
{
    let mut next = image_words::check_count(pool, at, most)?;
    for _ in 0..image_words::section_word(pool, at) {
        next = check_item(item, pool, next, names)?;
    }
    Some(next)
}
