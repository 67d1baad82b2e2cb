// Examples for growing, the new numbering, plans and runs, with values from the rules or worked out by hand.
#![tactic(auto)]

#[cfg(test)]
use checks::{Fault, Layer};

#[cfg(test)]
mod grown;
#[cfg(test)]
mod numbered;
#[cfg(test)]
mod path;
#[cfg(test)]
mod planned;
#[cfg(test)]
mod ran;

#[cfg(test)]
fn is_fault(answer: Option<Fault>, layer: Layer, number: u8, place: usize) -> bool {
    match answer {
        Some(fault) => {
            fault.layer == layer && fault.check.number() == number && fault.place == place
        }
        None => false,
    }
}
