// The bounds of 01, by name: what an image has at most, what is lent for it, and how far a call goes.

// An image's bytes, and its trailer's.
pub const IMAGE_BYTES: usize = 65536;

pub const TRAILER_BYTES: usize = 24;

// Bytes of detail that a caller lends at least.
pub const DETAIL_BYTES: usize = 576;

// Rows of the three tables.
pub const NAMES: usize = 1024;

pub const STRINGS: usize = 1024;

pub const DEFINITIONS: usize = 256;

// Bytes of a name's text.
pub const TEXT_BYTES: usize = 255;

// Words of a type, stored or resolved; and so deep it nests at most.
pub const TYPE_WORDS: usize = 64;

pub const TYPE_NESTING: u32 = 64;

// Bits of a sub-byte integer, and names of an inline bits type.
pub const SUB_BYTE_BITS: u32 = 64;

pub const BITS_NAMES: u32 = 62;

// Fields of a message; type parameters of a trait or an alias, and type arguments; functions of a trait or an
// implementation; parameters of a function.
pub const FIELDS: u32 = 256;

pub const TYPE_PARAMS: u32 = 8;

pub const FUNCTIONS: u32 = 64;

pub const PARAMS: u32 = 32;

// Statements of a body, Lets among them, and how deep an expression nests.
pub const STATEMENTS: u32 = 256;

pub const LETS: u32 = 32;

pub const NESTING: u32 = 32;

// Visits of one substitution.
pub const VISITS: u32 = 1024;

// Rows of the tables that a call holds by these bounds: a trait's functions; a function's parameters with its Lets.
pub const FUNCTION_ROWS: usize = 64;

pub const LOCAL_ROWS: usize = 64;
