// The kinds by which code matches: each code of 01 belongs to one.

// Types, by shape.
#[derive(Clone, Copy)]
pub enum TypeKind {
    Plain,
    Sub,
    Bits,
    Named,
    Qualified,
    Generic,
    One,
    Fixed,
    Two,
    Unknown,
}

#[derive(Clone, Copy)]
pub enum ExprKind {
    Literal,
    Flag,
    Text,
    Local,
    SelfRef,
    FieldAccess,
    Call,
    TraitMethodCall,
    Binary,
    Unary,
    Unknown,
}

#[derive(Clone, Copy)]
pub enum StatementKind {
    Expr,
    Let,
    Return,
    Assign,
    Unknown,
}

#[derive(Clone, Copy)]
pub enum DefinitionKind {
    Other,
    Message,
    GenericAlias,
    Trait,
    Implementation,
    Unknown,
}
