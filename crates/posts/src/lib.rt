// A post: what it keeps, and how it takes letters.
#![tactic(auto)]

pub mod oracles;
pub mod papers;
pub mod post;
pub mod seat;
pub mod tables;
pub mod taking;
