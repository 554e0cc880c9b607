// Whether a statement or a body stands in the pool, as the rules read it.
#![tactic(auto)]

pub mod bodies;
pub mod statements;
