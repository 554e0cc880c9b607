// A definition's number and a name's number, kept apart, and the constants that belong to their types by name.

#[derive(Clone, Copy, PartialEq, Eq)]
pub struct TypeId(pub u32);

#[derive(Clone, Copy, PartialEq, Eq)]
pub struct NameId(pub u32);

impl TypeId {
    pub const NONE: TypeId = TypeId(4294967295);

    pub const POISON: TypeId = TypeId(4294967295);
}

impl NameId {
    pub const NONE: NameId = NameId(4294967295);
}

// A primitive's code, in the source's order.
#[derive(Clone, Copy)]
pub struct PrimitiveType(pub u32);

impl PrimitiveType {
    pub const BOOL: u32 = 0;

    pub const U8: u32 = 1;

    pub const U16: u32 = 2;

    pub const U32: u32 = 3;

    pub const U64: u32 = 4;

    pub const I8: u32 = 5;

    pub const I16: u32 = 6;

    pub const I32: u32 = 7;

    pub const I64: u32 = 8;

    pub const F32: u32 = 9;

    pub const F64: u32 = 10;

    pub const FIXED32: u32 = 11;

    pub const FIXED64: u32 = 12;

    pub const VOID: u32 = 13;
}
