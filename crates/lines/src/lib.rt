// One line: where it ends, what it is, and where its text is damaged.
#![tactic(auto)]

pub mod buffer;
pub mod damage;
mod front;
pub mod line;
pub mod sound;
