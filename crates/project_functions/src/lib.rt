// The functions that a trait asks for, projected one by one.
#![tactic(auto)]

pub mod list;
pub mod one;
pub mod parts;
