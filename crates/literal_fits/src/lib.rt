// Which literals a type takes. An i64 enters as its bits.
#![tactic(auto)]

ghost use Rattle.std.specs.Prelude.{◌≡◌, ℕ, ◌-◌, ◌^◌, cond, ltb, pos, negsuc};
ghost use Rattle.std.specs.Int.Signed.{mag};
ghost use Rattle.rules.specs.Fits.{takes, range_of, int_of, int_fits, uint_fits};
ghost use Rattle.type_words.specs.Holds.{Each, EachMaybe, MaybeHolds};
ghost use Rattle.literal_fits.specs.Ranges.{range};
ghost use Rattle.literal_fits.specs.Literals.{literal_type, LiteralType};

use rules::ids::PrimitiveType;
use rules::tags::TypeTag;
use type_tests::is_float;
use type_words::{HeldType, MaybeType};

// 2 ^ 63: from here on the bits are a negative integer's.
const NEGATIVE: u64 = 9223372036854775808;

// 2 ^ 64 - 1, the bits of -1.
const LAST: u64 = 18446744073709551615;

// The integers that a type takes: those of a signed or an unsigned width, all, or none.
#[derive(Clone, Copy)]
pub enum Range {
    Signed(u32),
    Unsigned(u32),
    Any,
    Nothing,
}

pub fn literal_int_type(bits: u64, expected: MaybeType) -> MaybeType
    ensures { EachMaybe expected (λ names o. MaybeHolds names result (literal_type 0 bits o)) }
{
    literal_type(expected, int_fits(bits, expected.ty), PrimitiveType::I64)
}

pub fn literal_uint_type(bits: u64, expected: MaybeType) -> MaybeType
    ensures { EachMaybe expected (λ names o. MaybeHolds names result (literal_type 1 bits o)) }
{
    literal_type(expected, uint_fits(bits, expected.ty), PrimitiveType::U64)
}

// Of every float's bits.
pub fn literal_float_type(expected: MaybeType) -> MaybeType
    ensures { EachMaybe expected (λ names o. (bits : ℕ) → MaybeHolds names result (literal_type 2 bits o)) }
{
    literal_type(expected, is_float(expected.ty), PrimitiveType::F64)
}

// The expected type if the literal fits it, and the literal's own primitive with none expected.
fn literal_type(expected: MaybeType, fits: bool, own: u32) -> MaybeType
    ensures { LiteralType expected fits own result }
{
    if expected.some {
        return MaybeType {
            some: fits,
            ty: expected.ty,
        };
    }
    MaybeType::some(HeldType::plain(own))
}

pub fn int_fits(bits: u64, ty: HeldType) -> bool
    ensures { Each ty (λ t. result ≡ int_fits bits t) }
{
    int_in(bits, range_of(ty))
}

pub fn uint_fits(bits: u64, ty: HeldType) -> bool
    ensures { Each ty (λ t. result ≡ uint_fits bits t) }
{
    uint_in(bits, range_of(ty))
}

pub fn range_of(ty: HeldType) -> Range
    ensures { Each ty (λ t. range result ≡ range_of t) }
{
    match ty.word(0) {
        PrimitiveType::U8 => Range::Unsigned(8),
        PrimitiveType::U16 => Range::Unsigned(16),
        PrimitiveType::U32 => Range::Unsigned(32),
        PrimitiveType::U64 => Range::Unsigned(64),
        PrimitiveType::I8 => Range::Signed(8),
        PrimitiveType::I16 => Range::Signed(16),
        PrimitiveType::I32 => Range::Signed(32),
        PrimitiveType::I64 => Range::Signed(64),
        PrimitiveType::F32 => Range::Any,
        PrimitiveType::F64 => Range::Any,
        PrimitiveType::FIXED32 => Range::Signed(32),
        PrimitiveType::FIXED64 => Range::Signed(64),
        TypeTag::SUB_BYTE => {
            let width = ty.word(2);
            if ty.word(1) == 1 {
                Range::Signed(width)
            } else {
                Range::Unsigned(width)
            }
        }
        _ => Range::Nothing,
    }
}

// Whether a range takes the integer of a two's complement.
pub fn int_in(bits: u64, taken: Range) -> bool
    ensures { result ≡ takes (range taken) (int_of bits) }
{
    takes(taken, magnitude(bits), NEGATIVE <= bits)
}

// Whether a range takes an unsigned integer.
pub fn uint_in(bits: u64, taken: Range) -> bool
    ensures { result ≡ takes (range taken) (pos bits) }
{
    takes(taken, bits, false)
}

// Whether a range takes n, or -(n + 1).
fn takes(taken: Range, n: u64, negative: bool) -> bool
    ensures { result ≡ takes (range taken) (cond negative (negsuc n) (pos n)) }
{
    match taken {
        Range::Signed(width) => below_power(n, shift(width)),
        Range::Unsigned(width) => !negative & below_power(n, width),
        Range::Any => true,
        Range::Nothing => false,
    }
}

// n for the integer n and for -(n + 1), of a two's complement.
pub fn magnitude(bits: u64) -> u64
    ensures { result ≡ mag (int_of bits) }
{
    if bits < NEGATIVE { bits } else { LAST - bits }
}

// A signed width without its sign.
pub fn shift(width: u32) -> u32
    ensures { result ≡ width - 1 }
{
    width.saturating_sub(1)
}

// Whether x is below 2 to the power k.
pub fn below_power(x: u64, k: u32) -> bool
    ensures { result ≡ ltb x (2 ^ k) }
{
    if k < 64 {
        return x >> k == 0;
    }
    true
}
