// What the replay tells, as bytes in a lent text, each behind the last. A text with no more room keeps what fits.
#![tactic(auto)]

pub mod case;
pub mod files;
