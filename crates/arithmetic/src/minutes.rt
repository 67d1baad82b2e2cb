// Figures as minutes until water arrives.
ghost use Rattle.arithmetic.specs.Kinds.{minutes};

use crate::Arithmetic;

// Water that does not come.
pub const NEVER: u32 = 4_294_967_295;

// The latest minute at which water can still come.
pub const LATEST: u32 = 4_294_967_294;

#[derive(Clone, Copy)]
pub struct Minutes;

impl Arithmetic for Minutes {
    type Coefficient = u32;

    type Value = u32;

    ghost means = { λ _. minutes };

    fn coefficient_admissible(&self, _coefficient: u32) -> bool {
        true
    }

    fn value_admissible(&self, _value: u32) -> bool {
        true
    }

    fn diagonal_usable(&self, diagonal: u32) -> bool {
        diagonal == 0
    }

    fn take_in(&self, acc: u32, coefficient: u32, value: u32) -> u32 {
        // Kept: `saturating_add` gives the same, but would not name the latest minute.
        let sum = coefficient as u64 + value as u64;
        let arrival = if sum > LATEST as u64 {
            NEVER
        } else {
            sum as u32
        };
        acc.min(arrival)
    }

    fn finish(&self, acc: u32, _diagonal: u32) -> u32 {
        acc
    }
}
