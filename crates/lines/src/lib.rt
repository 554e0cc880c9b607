// Text in a lent buffer: bytes, numbers in decimal, an answer in lines. What is written is stated, and a program hands
// it to one `write_all`.
#![tactic(auto)]

pub mod answer;
pub mod text;
