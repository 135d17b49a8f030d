// What can be reported.
use crate::run::Outcome;

#[derive(Clone, Copy, PartialEq, Eq, Debug)]
pub enum Report {
    // A run ended so.
    Ended(Outcome),
    // A refusal of this number, at this place.
    Refused { number: u32, place: usize },
}
