// A night's lines as a listing has them: what each comes to, and how many there were of each sort.
#![tactic(auto)]

pub mod entry;
pub mod tally;
