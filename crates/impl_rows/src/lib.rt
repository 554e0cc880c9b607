// The rows of implementations and traits, and a trait's type parameters with an implementation's type arguments.
#![tactic(auto)]

pub mod find;
pub mod view;
