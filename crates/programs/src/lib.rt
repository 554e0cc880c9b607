// What the programs share: bytes from a reader, a call on an image from standard input, its answer printed in lines.
#![tactic(auto)]

pub mod call;
pub mod input;
pub mod room;
