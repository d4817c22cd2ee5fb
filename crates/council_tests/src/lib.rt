// Examples of councils, records, certificates, checks and draws, in a crate of their own.
#![tactic(auto)]

#[cfg(test)]
mod certificates;
#[cfg(test)]
mod checks_and_draws;
#[cfg(test)]
mod random;
#[cfg(test)]
mod signings;
