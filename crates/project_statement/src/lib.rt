// Parts of a function's body: values, Returns, assignments, and where the parts of a statement stand.
#![tactic(auto)]

pub mod assigns;
pub mod parts;
pub mod returns;
pub mod value;
