// The new numbering: rows in the order of their tile vectors, and what is carried there and back.
#![tactic(auto)]

pub mod carrying;
mod checking;
pub mod laws;
pub mod ordering;
pub mod remapping;
mod rows;
#[cfg(test)]
mod tests;

// The ranks of the rows, and the rows by rank. Of any origin: each call checks them.
#[derive(Clone, Copy)]
pub struct Numbering<'a> {
    pub ranks: &'a [u32],
    pub rows_by_rank: &'a [u32],
}
