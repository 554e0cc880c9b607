// The place behind what stands in the pool, by counting: on an image that is known to be readable no word is tested again.
#![tactic(auto)]

pub mod exprs;
pub mod functions;
pub mod statements;
