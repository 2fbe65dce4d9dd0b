// Plans: channels and their levels, the cuts, what each level sees of the events, and plan files.
#![tactic(auto)]

mod channel;
mod code;
mod file;
pub mod plan;
mod sizes;
