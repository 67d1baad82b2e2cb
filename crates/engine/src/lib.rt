// One problem through the tiles: from its tables to ranks, points, wait words and values.
#![tactic(auto)]

mod running;
pub mod solution;
pub mod solving;
