// What the program show_tiles prints of a case file: its grown tiles, sweep by sweep.
#![tactic(auto)]

pub mod reporting;
mod tiles;
