// What the program curtzano prints of a case file.
#![tactic(auto)]

pub mod cases;
pub mod lines;
pub mod reporting;
