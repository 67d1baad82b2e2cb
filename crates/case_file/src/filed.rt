// How one element of a table stands in a file.
ghost use Rattle.std.specs.Prelude.{◌≡◌, ℕ, ◌<◌, ◌≤◌, List};
ghost use Rattle.case_file.specs.Numbers.{big};
ghost use Rattle.case_file.specs.Doubles.{double, double_bits, OneNotANumber};
ghost use Rattle.case_file.specs.Elements.{one_element};
ghost use Rattle.std.proofs.Common.{rules};

use std::num::{f64_from_bits_with_nan, f64_to_bits_with_nan};

pub trait Filed: Sized {
    // The bytes that an element takes, what they mean, and the bits that a listing prints.
    ghost width: { ℕ };

    ghost filed: { List ℕ → Self };

    ghost printed: { Self → ℕ };

    fn width() -> usize
        ensures { result ≡ width };

    fn read(bytes: &[u8]) -> Option<Self>
        ensures { result ≡ one_element width filed bytes.now };

    fn bits(self) -> u64
        ensures { result ≡ printed self };

    ghost positive: { 0 < width };

    ghost narrow: { width ≤ 8 };
}

impl Filed for u8 {
    ghost width = { 1 };

    ghost filed = { big };

    ghost printed = { λ x. x };

    ghost positive = { Prim.search rules };

    ghost narrow = { Prim.search rules };

    fn width() -> usize {
        1
    }

    fn read(bytes: &[u8]) -> Option<u8> {
        Some(u8::from_be_bytes(bytes.try_into().ok()?))
    }

    fn bits(self) -> u64 {
        self as u64
    }
}

impl Filed for u32 {
    ghost width = { 4 };

    ghost filed = { big };

    ghost printed = { λ x. x };

    ghost positive = { Prim.search rules };

    ghost narrow = { Prim.search rules };

    fn width() -> usize {
        4
    }

    fn read(bytes: &[u8]) -> Option<u32> {
        Some(u32::from_be_bytes(bytes.try_into().ok()?))
    }

    fn bits(self) -> u64 {
        self as u64
    }
}

// Every pattern that is not a number reads as the one such value, which is printed as 7ff8000000000000.
impl Filed for f64 {
    ghost width = { 8 };

    ghost filed = { double };

    ghost printed = { double_bits };

    ghost positive = { Prim.search rules };

    ghost narrow = { Prim.search rules };

    fn width() -> usize {
        8
    }

    fn read(bytes: &[u8]) -> Option<f64> {
        let bits = u64::from_be_bytes(bytes.try_into().ok()?);
        Some(f64_from_bits_with_nan(bits))
    }

    fn bits(self) -> u64 {
        f64_to_bits_with_nan(self)
    }
}

pub fn one_not_a_number()
    ensures { OneNotANumber }
{}
