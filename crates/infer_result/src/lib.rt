// What comes of typing an expression: its type, or a refusal, built apart from writing it.
#![tactic(auto)]

pub mod inferred;
pub mod operators;
