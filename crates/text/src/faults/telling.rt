// What each refusal tells, and how a text's and a book's fault become a
// reader's.
ghost use Rattle.std.specs.Prelude.{◌≡◌};
ghost use Rattle.text.specs.declared.faults.ReadFault.TheVariants.{Text, Book};
ghost use Rattle.text.specs.declared.faults.Told.{Told};
ghost use Rattle.text.specs.Refusals.{text_refusal, book_refusal, read_refusal, by_of, number_of, place_of};

use super::{BookFault, ReadFault, Refuser, TextFault, Told};

// What a refusal tells, from one definition for each kind of fault.
pub trait Telling {
    ghost refusal: { Self → Told };

    fn told(&self) -> Told
        ensures value { result ≡ refusal self.now };

    fn refuser(&self) -> Refuser
        ensures value { result ≡ by_of (refusal self.now) }
    {
        self.told().refuser
    }

    fn number(&self) -> u8
        ensures value { result ≡ number_of (refusal self.now) }
    {
        self.told().number
    }

    fn place(&self) -> usize
        ensures value { result ≡ place_of (refusal self.now) }
    {
        self.told().place
    }
}

impl Telling for TextFault {
    ghost refusal = { text_refusal };

    fn told(&self) -> Told {
        let (number, place) = match self {
            TextFault::TooLong => (9, 0),
            TextFault::NotProblemLine { place } => (10, *place),
            TextFault::TooLarge { place } => (11, *place),
            TextFault::NotNumber { place } => (12, *place),
            TextFault::AboveVariables { place } => (13, *place),
            TextFault::EndsInsideClause { place } => (14, *place),
            TextFault::WordAfterClauses { place } => (15, *place),
            TextFault::ClausesMissing { place } => (16, *place),
        };
        Told {
            refuser: Refuser::Text,
            number,
            place,
        }
    }
}

impl Telling for BookFault {
    ghost refusal = { book_refusal };

    fn told(&self) -> Told {
        let (number, place) = match self {
            BookFault::TooManyLiterals { place } => (6, *place),
            BookFault::NoFreePlace { place } => (8, *place),
        };
        Told {
            refuser: Refuser::Book,
            number,
            place,
        }
    }
}

impl Telling for ReadFault {
    ghost refusal = { read_refusal };

    fn told(&self) -> Told {
        match self {
            ReadFault::Text(fault) => fault.told(),
            ReadFault::Book(fault) => fault.told(),
        }
    }
}

impl From<TextFault> for ReadFault {
    ghost from_gives = { λ f r. r ≡ Text f };

    fn from(fault: TextFault) -> ReadFault {
        ReadFault::Text(fault)
    }
}

impl From<BookFault> for ReadFault {
    ghost from_gives = { λ f r. r ≡ Book f };

    fn from(fault: BookFault) -> ReadFault {
        ReadFault::Book(fault)
    }
}
