// Plans: a tile table laid out as schedule and wait words, and opened into a plan that can be held.
#![tactic(auto)]

pub mod laws;
pub mod layout;
pub mod lent;
pub mod plan;
mod table;
#[cfg(test)]
mod tests;
