// The signature that a trait function asks for: its types substituted, and its words written.
#![tactic(auto)]

pub mod params;
pub mod part;
pub mod returns;
pub mod whole;
