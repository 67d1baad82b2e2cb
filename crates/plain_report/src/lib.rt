// What the program plain_sweep prints of a case file.
#![tactic(auto)]

pub mod reporting;
pub mod rows;
