// The two checks: by a list of editions, and by a remainder.
#![tactic(auto)]

pub mod list;
pub mod remainder;
