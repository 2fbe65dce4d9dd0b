// The lines of a script, and the commands that they are.
#![tactic(auto)]

pub mod command;
mod cursor;
pub mod line;
pub mod lines;
mod number;
#[cfg(test)]
mod tests;
pub mod token;
