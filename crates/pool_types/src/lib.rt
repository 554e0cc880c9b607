// Whether a resolved type stands in the pool, as the rules read it: the place behind it, or None.
#![tactic(auto)]

pub mod parts;
pub mod resolved;
