// What all listings share: figures by their bits, refusals, and how much input is taken.
#![tactic(auto)]

pub mod digits;
pub mod headings;
pub mod inputs;
pub mod refusals;
