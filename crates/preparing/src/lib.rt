// A problem prepared in memory from an allocator: grown, ranked, remapped, carried and laid out.
#![tactic(auto)]

pub mod failing;
pub mod figures;
pub mod layouts;
pub mod numbered;
pub mod posing;
pub mod prepared;
