// A case's tiles called in any order, and every answer and every value after each call written down.
#![tactic(auto)]

pub mod exporting;
mod lines;
pub mod replaying;
mod tracing;
