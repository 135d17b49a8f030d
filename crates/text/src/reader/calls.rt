// Reading a text, clause by clause.
ghost use Rattle.std.specs.Prelude.{◌≡◌, ◌-◌, [], length, Ok};
ghost use Rattle.table.specs.Held.{places_of};
ghost use Rattle.tokens.specs.Scanning.{piece_at};
ghost use Rattle.text.specs.Problem.{remaining};
ghost use Rattle.text.specs.Reading.{on, after_problem, at_end, between, reading};
ghost use Rattle.text.specs.Unread.{brings, number_brings, unread, given, Ended, Gave, Took, Alike, Begins, Grown, KeepsRest, UnlessGiven};

use super::{Reader, Remaining, State};
use crate::faults::{BookFault, ReadFault, TextFault};
use crate::problem::{Expected, Progress};
use limits::{MOST_BYTES, MOST_LITERALS};
use table::filled::Filled;
use tokens::stream::{Placed, Token, Tokens};

impl Remaining {
    // The state before the first of these clauses.
    fn begin(self) -> State
        ensures value { result ≡ between self.variables self.clauses }
    {
        if self.clauses == 0 {
            State::Done
        } else {
            State::BetweenClauses(self)
        }
    }

    // What remains after the clause that is being read.
    fn after_one(self) -> Remaining
        ensures value { result ≡ remaining self.variables (self.clauses - 1) }
    {
        Remaining {
            variables: self.variables,
            clauses: self.clauses.saturating_sub(1),
        }
    }
}

// The state after a word of the problem line.
impl From<Progress> for State {
    ghost from_gives = { λ p s. after_problem (Ok p) ≡ on s [] };

    fn from(progress: Progress) -> State {
        match progress {
            Progress::Expecting(next) => State::BeforeProblem(next),
            Progress::Complete(all) => all.begin(),
        }
    }
}

impl<'t, 'p> Reader<'t, 'p> {
    // Takes up to `limit` variables. The literals of each clause in turn are
    // put into `places`, which are lent, since nothing here allocates.
    pub fn new(text: &'t [u8], limit: u32, places: &'p mut [i32; MOST_LITERALS]) -> Reader<'t, 'p>
        ensures unread { unread result ≡ reading limit text.now }
        ensures none { given result ≡ [] }
        ensures places { places_of result.literals ≡ places.old }
    {
        Reader {
            tokens: Tokens::new(text),
            limit,
            state: State::BeforeProblem(Expected::ProblemWord),
            literals: Filled::new(places),
        }
    }

    // The literals of the clause that the last call gave; none where it gave none.
    pub fn clause(&self) -> &[i32]
        ensures value { result.now ≡ given self.now }
    {
        match self.state {
            State::InsideClause(_) => &[],
            _ => self.literals.as_slice(),
        }
    }

    // A clause begins with no literals.
    fn begin(&mut self)
        ensures same { unread self.new ≡ unread self.old }
        ensures tokens { self.new.tokens ≡ self.old.tokens }
        ensures begins { Begins self.new }
        ensures rest { KeepsRest self.old self.new }
    {
        if !matches!(self.state, State::InsideClause(_)) {
            self.literals.clear();
        }
    }

    // A number of the clauses, at a place, where the literals that stand before
    // it in its clause are held.
    #[tactic(auto, using(crate::proofs::Rest::push_keeps))]
    fn number(&mut self, left: Remaining, place: usize, x: i32) -> Result<Option<usize>, ReadFault>
        requires begins { Begins self.old }
        ensures alike { Alike self.old self.new }
        ensures rest { KeepsRest self.old self.new }
        ensures grown { Grown self.old self.new }
        ensures took { Took (number_brings self.old left place x) result self.old self.new }
        ensures begins { UnlessGiven result (Begins self.new) }
    {
        let size = x.unsigned_abs();
        if size == 0 {
            self.state = left.after_one().begin();
            return Ok(Some(place));
        }
        if size > left.variables {
            return Err(TextFault::AboveVariables { place }.into());
        }
        self.literals
            .push(x)
            .map_err(|_| BookFault::TooManyLiterals { place })?;
        self.state = State::InsideClause(left);
        Ok(None)
    }

    // Takes a token. Some: it ended a clause, at this place. What a kind of word
    // means in a state stands in one table, since states outlive a call.
    fn take(&mut self, piece: Placed<'_>) -> Result<Option<usize>, ReadFault>
        requires begins { Begins self.old }
        ensures alike { Alike self.old self.new }
        ensures rest { KeepsRest self.old self.new }
        ensures grown { Grown self.old self.new }
        ensures begins { UnlessGiven result (Begins self.new) }
        ensures took { Took (brings self.old (piece_at piece.entry)) result self.old self.new }
    {
        let Placed { place, token } = piece;
        // Passed over in every state, and no state is written for it.
        if matches!(token, Token::Comment(_)) {
            return Ok(None);
        }
        match (self.state, token) {
            (State::BeforeProblem(expected), _) => {
                self.state = expected.take(self.limit, piece)?.into();
                Ok(None)
            }
            (State::BetweenClauses(left) | State::InsideClause(left), Token::Number(_, x)) => {
                self.number(left, place, x)
            }
            (State::BetweenClauses(_) | State::InsideClause(_), _) => {
                Err(TextFault::NotNumber { place }.into())
            }
            (State::Done, _) => Err(TextFault::WordAfterClauses { place }.into()),
        }
    }

    // The end of the text, told by where it stands.
    fn finish(&self) -> Result<Option<usize>, ReadFault>
        ensures value { Ended (at_end (length self.now.tokens.text.now) self.now.state) result }
    {
        let place = self.tokens.text_len();
        let fault = match self.state {
            State::BeforeProblem(_) => TextFault::NotProblemLine { place },
            State::BetweenClauses(_) => TextFault::ClausesMissing { place },
            State::InsideClause(_) => TextFault::EndsInsideClause { place },
            State::Done => return Ok(None),
        };
        Err(fault.into())
    }

    // Reads on to the end of the next clause, and tells the place of its
    // ending 0; its literals are then those of `clause`. None: the text has
    // ended well. After that, and after a refusal, the same is told again.
    #[tactic(auto, using(crate::proofs::Rest::rest_stays, crate::proofs::Rest::none_given))]
    pub fn next_clause(&mut self) -> Result<Option<usize>, ReadFault>
        ensures gave { Gave (unread self.old) result (given self.new) (unread self.new) }
        ensures rest { KeepsRest self.old self.new }
    {
        self.begin();
        // A copy goes ahead, and is kept once its token is taken: a word that
        // was refused is met again.
        let mut ahead = self.tokens;
        if ahead.text_len() > MOST_BYTES {
            return Err(TextFault::TooLong.into());
        }
        while let Some(piece) = ahead.next() {
            let ended = self.take(piece)?;
            self.tokens = ahead;
            if let Some(end) = ended {
                return Ok(Some(end));
            }
        }
        self.finish()
    }
}
