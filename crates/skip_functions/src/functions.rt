// Functions, an implementation's and a trait's.
ghost use Rattle.std.specs.Prelude.{◌≡◌, ℕ};
ghost use Rattle.rules.specs.Syntax.{ImplFnDef, TraitReturn, TraitFnDef};
ghost use Rattle.image_words.specs.Verdict.{section_words};
ghost use Rattle.pool_types.specs.ParamAt.{ParamAt};
ghost use Rattle.pool_type_exprs.specs.TypeExprAt.{TypeExprAt};
ghost use Rattle.pool_traits.specs.TraitAt.{TraitReturnAt, TraitFunctionAt};
ghost use Rattle.pool_definitions.specs.DefinitionAt.{FunctionAt};
ghost use Rattle.skip_types.specs.Pending.{Pending};
ghost use Rattle.skip_functions.specs.Clauses.{SkipsParams, SkipsExprParams};

// The place behind so many names, each with a type expression.
fn skip_named(pool: &[u8], at: usize, count: u32) -> usize
    ensures { (names n : ℕ) → Pending (ParamAt names (section_words pool.now) (TypeExprAt names (section_words pool.now))) count at n → result ≡ n }
{
    let mut next = at;
    for _ in 0..count {
        if image_words::count(pool) <= next {
            return next;
        }
        next = skip_types::skip_type(pool, next + 1);
    }
    next
}

// The place behind a count and so many parameters.
pub fn skip_params(pool: &[u8], at: usize) -> usize
    ensures resolved { SkipsParams pool.now at result }
    ensures expressions { SkipsExprParams pool.now at result }
{
    if image_words::count(pool) <= at {
        return at;
    }
    let count = image_words::section_word(pool, at);
    skip_named(pool, at + 1, count)
}

// The place behind an implementation's function.
pub fn skip_function(pool: &[u8], at: usize) -> usize
    ensures { (names strings : ℕ) (f : ImplFnDef) (n : ℕ) → FunctionAt names strings (section_words pool.now) f at n → result ≡ n }
{
    if image_words::count(pool) <= at {
        return at;
    }
    let returns = skip_params(pool, at + 1);
    let body = skip_types::skip_maybe_type(pool, returns);
    crate::statements::skip_body(pool, body)
}

// The place behind a trait function's return: 0, or 1 or 2 and a type expression.
fn skip_trait_return(pool: &[u8], at: usize) -> usize
    ensures { (names : ℕ) (t : TraitReturn) (n : ℕ) → TraitReturnAt names (section_words pool.now) t at n → result ≡ n }
{
    if image_words::count(pool) <= at {
        return at;
    }
    if image_words::section_word(pool, at) == 0 {
        return at + 1;
    }
    skip_types::skip_type(pool, at + 1)
}

// The place behind a trait's function.
pub fn skip_trait_function(pool: &[u8], at: usize) -> usize
    ensures { (names : ℕ) (f : TraitFnDef) (n : ℕ) → TraitFunctionAt names (section_words pool.now) f at n → result ≡ n }
{
    if image_words::count(pool) <= at {
        return at;
    }
    let returns = skip_params(pool, at + 1);
    skip_trait_return(pool, returns)
}
