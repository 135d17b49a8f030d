// The problem line: the words p, cnf, n, m. Its reading is in
// problem/line.rt.
pub mod line;

use crate::reader::Remaining;

// Which of its words is read next.
#[derive(Clone, Copy)]
pub enum Expected {
    // The word p.
    ProblemWord,
    // The word cnf.
    FormatWord,
    // The number of variables.
    Variables,
    // The number of clauses; the variables are known.
    Clauses(u32),
}

// How far it is read after a word: either way it goes on, so no `Result`.
#[derive(Clone, Copy)]
pub enum Progress {
    Expecting(Expected),
    Complete(Remaining),
}
