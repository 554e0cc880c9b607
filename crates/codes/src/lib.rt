// A code's kind: number to enum once, so that all code above matches on the enum.
#![tactic(auto)]

ghost use Rattle.std.specs.Prelude.{◌≡◌};
ghost use Rattle.rules.specs.Kinds.{type_kind, expr_kind, statement_kind, definition_kind};

use rules::kinds::{DefinitionKind, ExprKind, StatementKind, TypeKind};
use rules::tags::{ExprTag, StatementTag, TypeTag};

#[tactic(auto, unfolding(rules::specs::Kinds::type_kind))]
pub fn type_kind(code: u32) -> TypeKind
    ensures { result ≡ type_kind code }
{
    match code {
        0..=13 | 32..=37 => TypeKind::Plain,
        TypeTag::SUB_BYTE => TypeKind::Sub,
        TypeTag::NAMED => TypeKind::Named,
        TypeTag::QUALIFIED => TypeKind::Qualified,
        TypeTag::GENERIC => TypeKind::Generic,
        TypeTag::FIXED_ARRAY => TypeKind::Fixed,
        TypeTag::MAP | TypeTag::RESULT => TypeKind::Two,
        64 | 65 | 67 | 70..=75 => TypeKind::One,
        TypeTag::BITS => TypeKind::Bits,
        _ => TypeKind::Unknown,
    }
}

#[tactic(auto, unfolding(rules::specs::Kinds::expr_kind))]
pub fn expr_kind(code: u32) -> ExprKind
    ensures { result ≡ expr_kind code }
{
    match code {
        0..=2 => ExprKind::Literal,
        ExprTag::FLAG => ExprKind::Flag,
        ExprTag::TEXT => ExprKind::Text,
        ExprTag::LOCAL => ExprKind::Local,
        ExprTag::SELF_REF => ExprKind::SelfRef,
        ExprTag::FIELD_ACCESS => ExprKind::FieldAccess,
        ExprTag::CALL => ExprKind::Call,
        ExprTag::TRAIT_METHOD_CALL => ExprKind::TraitMethodCall,
        ExprTag::BINARY => ExprKind::Binary,
        ExprTag::UNARY => ExprKind::Unary,
        _ => ExprKind::Unknown,
    }
}

#[tactic(auto, unfolding(rules::specs::Kinds::statement_kind))]
pub fn statement_kind(code: u32) -> StatementKind
    ensures { result ≡ statement_kind code }
{
    match code {
        StatementTag::EXPR => StatementKind::Expr,
        StatementTag::LET => StatementKind::Let,
        StatementTag::RETURN => StatementKind::Return,
        StatementTag::ASSIGN => StatementKind::Assign,
        _ => StatementKind::Unknown,
    }
}

#[tactic(auto, unfolding(rules::specs::Kinds::definition_kind))]
pub fn definition_kind(code: u32) -> DefinitionKind
    ensures { result ≡ definition_kind code }
{
    match code {
        0 => DefinitionKind::Other,
        1 => DefinitionKind::Message,
        2 => DefinitionKind::GenericAlias,
        3 => DefinitionKind::Trait,
        4 => DefinitionKind::Implementation,
        _ => DefinitionKind::Unknown,
    }
}
