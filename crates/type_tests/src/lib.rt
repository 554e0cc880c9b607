// Type tests: whether two types are the same, what kind of number one is, what a return means.
#![tactic(auto)]

ghost use Rattle.std.specs.Prelude.{◌≡◌};
ghost use Rattle.rules.specs.Types.{is_numeric, is_signed_numeric, is_equality_type, is_float, normalize_return, same_return};
ghost use Rattle.type_words.specs.Holds.{Each, EachMaybe, MaybeHolds};
ghost use Rattle.type_tests.specs.Tests.{Same};

use rules::ids::PrimitiveType;
use rules::tags::TypeTag;
use type_words::{HeldType, MaybeType};

// Whether two types are the same run: it stops at the first word that differs. Not by `==`: std compares slices of words by groups, each to its end.
pub fn same_type(a: HeldType, b: HeldType) -> bool
    ensures { Same a b result }
{
    let n = a.count();
    let m = b.count();
    if n != m {
        return false;
    }
    for i in 0..n {
        if a.words[i] != b.words[i] {
            return false;
        }
    }
    true
}

pub fn is_numeric(ty: HeldType) -> bool
    ensures { Each ty (λ t. result ≡ is_numeric t) }
{
    match ty.word(0) {
        PrimitiveType::U8 | PrimitiveType::U16 | PrimitiveType::U32 | PrimitiveType::U64 => true,
        PrimitiveType::I8 | PrimitiveType::I16 | PrimitiveType::I32 | PrimitiveType::I64 => true,
        PrimitiveType::F32 | PrimitiveType::F64 => true,
        PrimitiveType::FIXED32 | PrimitiveType::FIXED64 => true,
        TypeTag::SUB_BYTE => true,
        _ => false,
    }
}

pub fn is_signed_numeric(ty: HeldType) -> bool
    ensures { Each ty (λ t. result ≡ is_signed_numeric t) }
{
    match ty.word(0) {
        PrimitiveType::I8 | PrimitiveType::I16 | PrimitiveType::I32 | PrimitiveType::I64 => true,
        PrimitiveType::F32 | PrimitiveType::F64 => true,
        PrimitiveType::FIXED32 | PrimitiveType::FIXED64 => true,
        TypeTag::SUB_BYTE => ty.word(1) == 1,
        _ => false,
    }
}

pub fn is_equality_type(ty: HeldType) -> bool
    ensures { Each ty (λ t. result ≡ is_equality_type t) }
{
    if is_numeric(ty) {
        return true;
    }
    match ty.word(0) {
        PrimitiveType::BOOL | TypeTag::STRING => true,
        _ => false,
    }
}

pub fn is_float(ty: HeldType) -> bool
    ensures { Each ty (λ t. result ≡ is_float t) }
{
    match ty.word(0) {
        PrimitiveType::F32 | PrimitiveType::F64 => true,
        _ => false,
    }
}

// Void as a return means none.
pub fn normalize_return(return_type: MaybeType) -> MaybeType
    ensures { EachMaybe return_type (λ names o. MaybeHolds names result (normalize_return o)) }
{
    if return_type.some {
        let ty = return_type.ty;
        if ty.word(0) == PrimitiveType::VOID {
            return MaybeType::none();
        }
        return return_type;
    }
    return_type
}

// Whether two returns are the same: both none, or the same type.
pub fn same_return(a: MaybeType, b: MaybeType) -> bool
    ensures { EachMaybe a (λ m t. EachMaybe b (λ n u. result ≡ same_return t u)) }
{
    if a.some {
        if b.some {
            let left = a.ty;
            let right = b.ty;
            return same_type(left, right);
        }
        return false;
    }
    !b.some
}
