// Letters as lines: six kinds, one layout, one cutter and one writer.
#![tactic(auto)]

mod body;
pub mod entry;
mod field;
pub mod kind;
pub mod letter;
pub mod line;
