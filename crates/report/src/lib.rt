// The report on what each level of a plan sees of the events of a script.
#![tactic(auto)]

mod answers;
mod level;
mod refused;
mod seen;
pub mod sights;
mod tally;
