// What reading a whole text comes to.
use limits::{MOST_CLAUSES, MOST_LITERALS};
use text::faults::telling::Telling;
use text::reader::Reader;

// How many clauses and literals were read, the place of the last clause's
// ending 0, and the refusal, if there is one: the number and the place that a
// user is told.
#[derive(Clone, Copy, PartialEq, Eq, Debug)]
pub struct Outcome {
    pub clauses: u32,
    pub literals: usize,
    pub last: Option<usize>,
    pub refusal: Option<(u8, usize)>,
}

// Reads a text clause by clause, with places of its own to lend. No text has
// more clauses than `MOST_CLAUSES`.
pub(crate) fn read_whole(text: &[u8], limit: u32) -> Outcome {
    let mut places = [0; MOST_LITERALS];
    let mut reader = Reader::new(text, limit, &mut places);
    let mut read = Outcome {
        clauses: 0,
        literals: 0,
        last: None,
        refusal: None,
    };
    for _ in 0..=MOST_CLAUSES {
        match reader.next_clause() {
            Ok(None) => return read,
            Ok(Some(end)) => {
                read.last = Some(end);
                read.clauses = read.clauses.saturating_add(1);
                read.literals = read.literals.saturating_add(reader.clause().len());
            }
            Err(fault) => {
                read.refusal = Some((fault.number(), fault.place()));
                return read;
            }
        }
    }
    read
}
