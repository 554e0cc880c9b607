// What a call is asked of: an implementation and its trait, where they stand in the pool.
#![tactic(auto)]

ghost use Rattle.std.specs.Prelude.{◌≡◌};
ghost use Rattle.rules.specs.Syntax.{CompiledSchema};
ghost use Rattle.image_layout.specs.Open.{Open};
ghost use Rattle.impl_trait.specs.Subjects.{number_of, name_of, subject, Finds};

use image_layout::Layout;
use rules::ids::{NameId, TypeId};

// The places of the trait, of the target type and of the type arguments.
#[derive(Clone, Copy)]
pub struct Subject {
    pub start: usize,
    pub target: usize,
    pub types: usize,
}

// Why there is none: the row is no implementation's, or the trait of this name has no trait's row.
#[derive(Clone, Copy)]
pub enum NoSubject {
    NoImplementation,
    NoTrait(NameId),
}

impl NoSubject {
    // The refusal's number.
    pub fn number(self) -> u32
        ensures { result ≡ number_of self }
    {
        match self {
            NoSubject::NoImplementation => 3,
            NoSubject::NoTrait(_) => 4,
        }
    }

    // The name beside it.
    pub fn name(self) -> NameId
        ensures { result.0 ≡ name_of self }
    {
        match self {
            NoSubject::NoImplementation => NameId::NONE,
            NoSubject::NoTrait(name) => name,
        }
    }
}

// 3 where the number is no implementation's row, then 4 where its trait's number is no trait's row.
pub fn find_subject(l: &Layout, number: TypeId) -> Result<Subject, NoSubject>
    ensures { (s : CompiledSchema) → Open l.now s → Finds l.now (subject number.0 s) result }
{
    let Some(at) = impl_rows::find::find_implementation(l, number) else {
        return Err(NoSubject::NoImplementation);
    };
    let pool = l.pool;
    let id = image_words::section_word(pool, at);
    let name_at = image_words::after(pool, at);
    let Some(start) = impl_rows::find::find_trait(l, TypeId(id)) else {
        let name = NameId(image_words::section_word(pool, name_at));
        return Err(NoSubject::NoTrait(name));
    };
    let target = image_words::after(pool, name_at);
    Ok(Subject {
        start,
        target,
        types: skip_types::skip_type(pool, target),
    })
}
