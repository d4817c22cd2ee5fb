// Sets of posts as masks, and the posts behind a matter.
#![tactic(auto)]

pub mod mask;
pub mod senders;
