// The ground that agreement stands on: councils, what posts sign, what is asked of a record, a check
// and a draw, and when a certificate is good.
#![tactic(auto)]

pub mod certificate;
pub mod check;
pub mod council;
pub mod draw;
pub mod signing;
pub mod statement;
