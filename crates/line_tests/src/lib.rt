// Examples of lines and letters, in a crate of their own.
#![tactic(auto)]

#[cfg(test)]
mod letters_and_lines;
#[cfg(test)]
mod whole_inputs;
