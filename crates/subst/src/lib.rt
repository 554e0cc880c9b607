// Substitution: what a type expression of the pool resolves to, with the visits that it takes.
#![tactic(auto)]

pub mod cycle;
pub mod whole;
