// Plan files that are refused or accepted, by number.
#![tactic(auto)]

#[cfg(test)]
mod tests;
