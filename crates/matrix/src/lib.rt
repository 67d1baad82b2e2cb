// A sparse matrix by rows, lent, and the checks that every call makes of what it is handed.
#![tactic(auto)]

pub mod pattern;
pub mod sizes;
pub mod tables;
