// The words that tell what stands behind them, by name. Numbers and no enums: they are the image's own words, by which
// `rules/specs/Kinds` defines the kinds; `kinds` has the enums that code matches on.

// Types that are no primitive and that code asks for.
#[derive(Clone, Copy)]
pub struct TypeTag(pub u32);

impl TypeTag {
    pub const SUB_BYTE: u32 = 16;

    pub const STRING: u32 = 32;

    pub const NAMED: u32 = 48;

    pub const QUALIFIED: u32 = 49;

    pub const GENERIC: u32 = 50;

    pub const FIXED_ARRAY: u32 = 66;

    pub const MAP: u32 = 68;

    pub const RESULT: u32 = 69;

    pub const BITS: u32 = 80;
}

// Expressions: those below FLAG are literal numbers.
#[derive(Clone, Copy)]
pub struct ExprTag(pub u32);

impl ExprTag {
    pub const FLAG: u32 = 3;

    pub const TEXT: u32 = 4;

    pub const LOCAL: u32 = 5;

    pub const SELF_REF: u32 = 6;

    pub const FIELD_ACCESS: u32 = 7;

    pub const CALL: u32 = 8;

    pub const TRAIT_METHOD_CALL: u32 = 9;

    pub const BINARY: u32 = 10;

    pub const UNARY: u32 = 11;
}

#[derive(Clone, Copy)]
pub struct StatementTag(pub u32);

impl StatementTag {
    pub const EXPR: u32 = 0;

    pub const LET: u32 = 1;

    pub const RETURN: u32 = 2;

    pub const ASSIGN: u32 = 3;
}
