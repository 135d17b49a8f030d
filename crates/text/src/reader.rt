// The reader of a text, which gives its clauses one at a time. Its calls are
// in reader/calls.rt.
pub mod calls;

use crate::problem::Expected;
use table::filled::Filled;
use tokens::stream::Tokens;

// The clauses that remain to be read, the one that is being read among them,
// and the text's number of variables.
#[derive(Clone, Copy)]
pub struct Remaining {
    pub variables: u32,
    pub clauses: u32,
}

// Where in the text the next word stands.
#[derive(Clone, Copy)]
pub enum State {
    BeforeProblem(Expected),
    BetweenClauses(Remaining),
    InsideClause(Remaining),
    Done,
}

// A text that is being read: what it has still to say, and the literals of
// the clause that was read last or is being read.
#[derive(Drop)]
pub struct Reader<'t, 'p> {
    pub(crate) tokens: Tokens<'t>,
    pub(crate) limit: u32,
    pub(crate) state: State,
    pub(crate) literals: Filled<'p, i32>,
}
