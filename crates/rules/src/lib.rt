// The rules of documents 01 and 02 stand in specs/; here is the vocabulary that the code shares with them.
#![tactic(auto)]

pub mod bounds;
pub mod ids;
pub mod kinds;
pub mod tags;
