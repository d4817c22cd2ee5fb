// The two draws: by turns, and by a table.
#![tactic(auto)]

mod size;
pub mod table;
pub mod turn;
