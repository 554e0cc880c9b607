// What a name stands for: an alias to a primitive, a definition's number, a generic alias.
#![tactic(auto)]

pub mod generic;
pub mod names;
