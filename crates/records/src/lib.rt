// The two records: a list of signatures, and a sheet with a row for each statement.
#![tactic(auto)]

pub mod list;
mod row;
pub mod sheet;
mod wanted;
