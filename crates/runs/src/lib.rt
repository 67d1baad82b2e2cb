// Runs over a plan: beginning, tile calls and closing, and the law that every run keeps.
#![tactic(auto)]

pub mod laws;
pub mod run;
pub mod system;
pub mod whole;
