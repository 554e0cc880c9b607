// The texts of name rows: where a text stands, and whether two are the same.
#![tactic(auto)]

pub mod row;
pub mod same;
