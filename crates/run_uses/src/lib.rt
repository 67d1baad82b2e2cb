// Runs of one tile call, as a caller writes them; tests/must-not-compile has the misuses that each resembles.
#![tactic(auto)]

pub mod passing_on;
pub mod reading;
