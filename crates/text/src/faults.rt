// Why a text is refused. Refusals.antt gives each case its number.
pub mod telling;

// Who refuses: the session, the text, or the book that its clauses go to.
#[derive(Clone, Copy, PartialEq, Eq, Debug)]
pub enum Refuser {
    Session,
    Text,
    Book,
}

// What a refusal tells: who refuses, its number, and a byte place counted from 0.
#[derive(Clone, Copy, PartialEq, Eq, Debug)]
pub struct Told {
    pub refuser: Refuser,
    pub number: u8,
    pub place: usize,
}

// The text itself is at fault, at a byte place counted from 0.
#[derive(Clone, Copy, PartialEq, Eq, Debug)]
pub enum TextFault {
    // More than 1,048,576 bytes.
    TooLong,
    // A word that does not fit the problem line, or the end before it is read.
    NotProblemLine { place: usize },
    // More variables or clauses than may be.
    TooLarge { place: usize },
    // No number word where a literal or a 0 should stand.
    NotNumber { place: usize },
    // A literal of a variable above the text's own number of variables.
    AboveVariables { place: usize },
    // The end of the text inside a clause.
    EndsInsideClause { place: usize },
    // A word after the last clause.
    WordAfterClauses { place: usize },
    // The end of the text before the last clause.
    ClausesMissing { place: usize },
}

// The book that the clauses go to refuses one.
#[derive(Clone, Copy, PartialEq, Eq, Debug)]
pub enum BookFault {
    // A 129th literal.
    TooManyLiterals { place: usize },
    // The clause needs a new line, and no place is free. The place is that of
    // its ending 0.
    NoFreePlace { place: usize },
}

// What a reader of a whole text refuses.
#[derive(Clone, Copy, PartialEq, Eq, Debug)]
pub enum ReadFault {
    Text(TextFault),
    Book(BookFault),
}
