// Numbers in base 16, as listings print them.
ghost use Rattle.std.specs.Prelude.{◌≡◌, ◌%◌, ◌^◌, Some};
ghost use Rattle.listing.specs.Digits.{hexadecimal, short_hexadecimal};

use std::fmt;

// A number's lowest digits in base 16, the highest of them first.
#[derive(Clone, Copy)]
pub struct Hexadecimal {
    pub number: u64,
    pub digits: u8,
}

// What is left of a number without the digits above the lowest so many.
fn lowest(number: u64, digits: u8) -> u64
    ensures { result ≡ number % 16 ^ digits }
{
    match 16u64.checked_pow(digits as u32) {
        Some(end) => number % end,
        None => number,
    }
}

impl fmt::Display for Hexadecimal {
    ghost output = { λ h. Some (hexadecimal h.digits h.number) };

    fn fmt<W: fmt::Write>(&self, f: &mut fmt::Formatter<W>) -> fmt::Result {
        let width = self.digits as usize;
        // A width of 0 still writes one digit.
        if width == 0 {
            return Ok(());
        }
        let number = lowest(self.number, self.digits);
        write!(f, "{number:0width$x}")
    }
}

// A number in base 16 without leading zeros.
#[derive(Clone, Copy)]
pub struct ShortHexadecimal(pub u64);

impl fmt::Display for ShortHexadecimal {
    ghost output = { λ h. Some (short_hexadecimal 16 h.0) };

    fn fmt<W: fmt::Write>(&self, f: &mut fmt::Formatter<W>) -> fmt::Result {
        let number = self.0;
        write!(f, "{number:x}")
    }
}
