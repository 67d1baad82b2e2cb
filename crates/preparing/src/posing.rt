// What is to be solved, all of it lent.
use arithmetic::system::System;
use growing::Seeding;

// A system to be swept from a start, with a seed partition.
#[derive(Clone, Copy)]
pub struct Problem<'a, C, V> {
    pub system: System<'a, C, V>,
    pub vector: &'a [V],
    pub seeding: Seeding<'a>,
}
