// The place behind types and type expressions, by counting: on an image that is known to be readable no word is tested again.
#![tactic(auto)]

ghost use Rattle.std.specs.Prelude.{◌≡◌, ℕ, ◌+◌, ◌<◌, get_or, length};
ghost use Rattle.rules.specs.Syntax.{ResolvedType, TypeExpr};
ghost use Rattle.image_words.specs.Verdict.{section_words};
ghost use Rattle.pool_types.specs.TypeAt.{TypeAt};
ghost use Rattle.pool_type_exprs.specs.TypeExprAt.{TypeExprAt};
ghost use Rattle.skip_types.specs.Pending.{Pending};
ghost use Rattle.skip_types.specs.TypeNodes.{type_node};
ghost use Rattle.skip_types.specs.Clauses.{SkipsMaybeType};

use rules::kinds::TypeKind;

// A node's own words, and the parts that stand behind them.
#[derive(Clone, Copy)]
pub struct Node {
    pub words: usize,
    pub parts: usize,
}

// The node of a kind at a place.
fn type_node(pool: &[u8], at: usize, k: TypeKind) -> Node
    requires { (at < length (section_words pool.now)) }
    ensures { (result ≡ type_node k (get_or (section_words pool.now) (at + 1) 0)) × (0 < result.words) × (result.words < 4294967298) × (result.parts < 3) }
{
    match k {
        TypeKind::Plain => Node { words: 1, parts: 0 },
        TypeKind::Sub => Node { words: 3, parts: 0 },
        TypeKind::Bits => Node {
            words: 2 + image_words::section_word(pool, at + 1) as usize,
            parts: 0,
        },
        TypeKind::Named => Node { words: 2, parts: 0 },
        TypeKind::Qualified => Node { words: 3, parts: 0 },
        TypeKind::Generic => Node { words: 2, parts: 1 },
        TypeKind::One => Node { words: 1, parts: 1 },
        TypeKind::Fixed => Node { words: 3, parts: 1 },
        TypeKind::Two => Node { words: 1, parts: 2 },
        TypeKind::Unknown => Node { words: 1, parts: 0 },
    }
}

// The place behind so many type expressions.
pub fn skip_types(pool: &[u8], at: usize, count: u32) -> usize
    ensures { (names n : ℕ) → Pending (TypeExprAt names (section_words pool.now)) count at n → result ≡ n }
{
    let len = image_words::count(pool);
    let mut pending = count as usize;
    let mut next = at;
    while 0 < pending {
        if len <= next {
            return next;
        }
        let k = codes::type_kind(image_words::section_word(pool, next));
        let node = type_node(pool, next, k);
        next += node.words;
        pending = pending - 1 + node.parts;
    }
    next
}

// The place behind a type expression; a resolved type is one.
pub fn skip_type(pool: &[u8], at: usize) -> usize
    ensures resolved { (names : ℕ) (t : ResolvedType) (n : ℕ) → TypeAt names (section_words pool.now) t at n → result ≡ n }
    ensures expressions { (names : ℕ) (e : TypeExpr) (n : ℕ) → TypeExprAt names (section_words pool.now) e at n → result ≡ n }
{
    skip_types(pool, at, 1)
}

// The place behind 0, or 1 and a resolved type.
pub fn skip_maybe_type(pool: &[u8], at: usize) -> usize
    ensures { SkipsMaybeType pool.now at result }
{
    if image_words::count(pool) <= at {
        return at;
    }
    if image_words::section_word(pool, at) == 0 {
        return at + 1;
    }
    skip_type(pool, at + 1)
}
