// Stored cases and their labels as the files have them, and an answer held against a case.
#![tactic(auto)]

pub mod buffers;
pub mod case;
pub mod labels;
pub mod verdict;
