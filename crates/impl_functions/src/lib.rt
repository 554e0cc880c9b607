// An implementation's functions: their places, their names, and the one of a name.
#![tactic(auto)]

pub mod names;
pub mod places;
pub mod search;
pub mod table;
