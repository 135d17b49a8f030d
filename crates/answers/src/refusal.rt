// Why a call is refused.
ghost use Rattle.answers.specs.Refusals.{call_refusal};

use text::faults::telling::Telling;
use text::faults::{Refuser, Told};

#[derive(Clone, Copy, PartialEq, Eq, Debug)]
pub enum Refusal {
    // The session is open already.
    AlreadyOpen,
    // No variables, or more than may be.
    VariablesOutOfRange,
    // The book has more places than may be.
    TooManyPlaces,
    // The start has a one at bit n or above.
    StartOutOfRange,
    // The session is not open.
    NotOpen,
    // More numbers than a clause may have.
    TooManyNumbers,
    // A number that is 0, or whose size is above n.
    NoLiteral,
    // The clause needs a new line, and no place is free.
    NoFreePlace,
    // A budget of more steps than may be.
    BudgetTooLarge,
    // There is no line of this number.
    NoSuchLine,
    // No line is empty.
    NoEmptyLine,
    // The buffer is shorter than what is to be written.
    BufferTooShort,
}

// These calls read no text, so they are refused at place 0.
impl Telling for Refusal {
    ghost refusal = { call_refusal };

    fn told(&self) -> Told {
        let (refuser, number) = match self {
            Refusal::AlreadyOpen => (Refuser::Session, 1),
            Refusal::VariablesOutOfRange => (Refuser::Session, 2),
            Refusal::TooManyPlaces => (Refuser::Session, 3),
            Refusal::StartOutOfRange => (Refuser::Session, 4),
            Refusal::NotOpen => (Refuser::Session, 5),
            Refusal::TooManyNumbers => (Refuser::Book, 6),
            Refusal::NoLiteral => (Refuser::Book, 7),
            Refusal::NoFreePlace => (Refuser::Book, 8),
            Refusal::BudgetTooLarge => (Refuser::Session, 17),
            Refusal::NoSuchLine => (Refuser::Session, 18),
            Refusal::NoEmptyLine => (Refuser::Session, 19),
            Refusal::BufferTooShort => (Refuser::Session, 20),
        };
        Told {
            refuser,
            number,
            place: 0,
        }
    }
}
