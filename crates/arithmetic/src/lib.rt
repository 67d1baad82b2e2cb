// The row arithmetic: what a row's new value is made with, for every kind of figure.
#![tactic(auto)]

ghost use Rattle.std.specs.Prelude.{◌≡◌};
ghost use Rattle.arithmetic.specs.Meanings.{Meaning};

pub mod admitting;
pub mod doubles;
pub mod minutes;
pub mod sweeping;
pub mod system;

// Each answer is one fixed function of its operands: `means` holds these functions.
pub trait Arithmetic {
    type Coefficient: Copy;

    type Value: Copy;

    ghost means: { Self → Meaning Self.Coefficient Self.Value };

    fn coefficient_admissible(&self, coefficient: Self::Coefficient) -> bool
        ensures { result ≡ (means self.now).coefficient_admissible coefficient };

    fn value_admissible(&self, value: Self::Value) -> bool
        ensures { result ≡ (means self.now).value_admissible value };

    fn diagonal_usable(&self, diagonal: Self::Coefficient) -> bool
        ensures { result ≡ (means self.now).diagonal_usable diagonal };

    // What the accumulator becomes when an entry's coefficient and the value of its column are taken in.
    fn take_in(
        &self,
        acc: Self::Value,
        coefficient: Self::Coefficient,
        value: Self::Value,
    ) -> Self::Value
        ensures { result ≡ (means self.now).taken_in acc coefficient value };

    // The row's new value, from the accumulator and the own entry's coefficient.
    fn finish(&self, acc: Self::Value, diagonal: Self::Coefficient) -> Self::Value
        ensures { result ≡ (means self.now).finished acc diagonal };
}
