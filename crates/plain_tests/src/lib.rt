// Examples for the matrix checks, the plain sweep, the case reader and the report, with values from the rules or worked out by hand.
#![tactic(auto)]

#[cfg(test)]
use checks::{Fault, Layer};

#[cfg(test)]
mod files;
#[cfg(test)]
mod matrices;
#[cfg(test)]
mod sweeps;

#[cfg(test)]
fn is_fault(answer: Option<Fault>, number: u8, place: usize, layer: Layer) -> bool {
    answer.is_some_and(|fault| {
        fault.check.number() == number && fault.place == place && fault.layer == layer
    })
}
