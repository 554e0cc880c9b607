// Whether a message, a generic alias or an implementation stands in the pool, as the rules read it.
#![tactic(auto)]

pub mod implementations;
pub mod messages;
