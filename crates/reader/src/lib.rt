// The lines of a whole input: of one that lies in memory, and of one that comes in byte by byte.
#![tactic(auto)]

pub mod input;
pub mod intake;
