// Answers and refusals as code holds them, and words written where there is room.
#![tactic(auto)]

pub mod answer;
pub mod output;
pub mod refusal;
