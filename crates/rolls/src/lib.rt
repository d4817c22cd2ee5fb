// The roll of letters, and which letters have shape in a council.
#![tactic(auto)]

pub mod roll;
pub mod shape;
