// Whether poison occurs in a type: what the type tells, and how that is found while its words are copied.
#![tactic(auto)]

ghost use Rattle.std.specs.Prelude.{◌≤◌, ◌≡◌};
ghost use Rattle.rules.specs.Types.{contains_poison};
ghost use Rattle.type_words.specs.Holds.{Each};
ghost use Rattle.type_poison.specs.Headers.{header_of, poison_words};
ghost use Rattle.type_poison.specs.Passing.{Passes};

use codes::type_kind;
use rules::ids::TypeId;
use rules::kinds::TypeKind;
use rules::tags::TypeTag;
use type_words::HeldType;

// Whether poison occurs anywhere in a type: its maker has told.
pub fn contains_poison(ty: HeldType) -> bool
    ensures { (result ≡ ty.poison) × Each ty (λ t. result ≡ contains_poison t) }
{
    ty.poison
}

// What is seen of a type whose words are passed one by one: whether a node so far is poison, and at which place the second
// word of the next node stands.
#[derive(Clone, Copy)]
pub struct Seen {
    pub poison: bool,
    pub second: usize,
}

// The word at place i, with the one before it. Only a node's second word is looked at: the word before it is the node's
// code, and both tell whether it is poison and how many words stand before its parts, so where the next node is.
pub fn pass(seen: Seen, i: usize, before: u32, word: u32) -> Seen
    requires { i ≤ 64 }
    ensures { Passes seen i before word result }
{
    if i == seen.second {
        return Seen {
            poison: seen.poison | is_poison(before, word),
            second: i + header(type_kind(before), word),
        };
    }
    seen
}

// Whether a node that begins with these two words is poison.
fn is_poison(code: u32, next: u32) -> bool
    ensures { result ≡ poison_words code next }
{
    (code == TypeTag::NAMED) & (TypeId(next) == TypeId::POISON)
}

// How many words stand in a node before its parts.
fn header(kind: TypeKind, next: u32) -> usize
    ensures { result ≡ header_of kind next }
{
    match kind {
        TypeKind::Plain => 1,
        TypeKind::Sub => 3,
        TypeKind::Bits => (next as usize) + 2,
        TypeKind::Named => 2,
        TypeKind::Qualified => 1,
        TypeKind::Generic => 1,
        TypeKind::One => 1,
        TypeKind::Fixed => 3,
        TypeKind::Two => 1,
        TypeKind::Unknown => 1,
    }
}
