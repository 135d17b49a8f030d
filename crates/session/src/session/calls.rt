// Making, opening and restarting a session, and what is read of it without
// changing anything.
ghost use Rattle.std.specs.Prelude.{◌≡◌, ◌≤◌, ◌<◌, ◌^◌, length};
ghost use Rattle.words.specs.Bits.{width};
ghost use Rattle.clauses.specs.Values.{truths};
ghost use Rattle.table.specs.Held.{places_of};
ghost use Rattle.histories.specs.States.{unopened};
ghost use Rattle.histories.specs.Calls.{opens, restarts, opened, restarted, too_wide};
ghost use Rattle.session.specs.Sessions.{state, line_of, line_told, Guarantees, KeepsPlaces};

use super::Session;
use answers::refusal::Refusal;
use limits::{MOST_LINES, MOST_VARIABLES};
use lines::line::Line;
use table::filled::Filled;
use valuations::valuation::Full;
use words::sets::WIDTH;

// Whether the word has a one at bit n or above.
fn is_too_wide(word: u64, n: u32) -> bool
    requires { n ≤ width }
    ensures value { result ≡ too_wide n word }
{
    n < WIDTH && word >= 1u64 << n
}

impl<'a> Session<'a> {
    // Unopened, over its book's places; each place keeps what the caller had
    // there.
    #[tactic(auto, using(crate::proofs::States::no_truths))]
    pub fn new(places: &'a mut [Line]) -> Session<'a>
        ensures unopened { state result ≡ unopened }
        ensures places { places_of result.book ≡ places.old }
        ensures lent { result.book.places.ghost_name ≡ places.entry.ghost_name }
    {
        Session {
            book: Filled::new(places),
            n: 0,
            assignment: Full { word: 0 },
        }
    }

    // Opens it over the variables 1 to n; bit v - 1 of `start` is one if v
    // starts true.
    #[tactic(auto, using(histories::proofs::Histories::continues))]
    pub fn open(&mut self, n: u32, start: u64) -> Result<(), Refusal>
        ensures guaranteed { Guarantees self.old (opens n start) (opened result) self.new }
        ensures lent { self.new.book.places.ghost_name ≡ self.old.book.places.ghost_name }
        ensures keeps { KeepsPlaces self.old self.new }
    {
        if self.n != 0 {
            return Err(Refusal::AlreadyOpen);
        }
        if n == 0 || n > MOST_VARIABLES {
            return Err(Refusal::VariablesOutOfRange);
        }
        // Unopened, all its places are free.
        if self.book.room() > MOST_LINES {
            return Err(Refusal::TooManyPlaces);
        }
        if is_too_wide(start, n) {
            return Err(Refusal::StartOutOfRange);
        }
        self.n = n;
        self.assignment = Full { word: start };
        Ok(())
    }

    // Makes a start the assignment; the lines stay.
    #[tactic(auto, using(histories::proofs::Histories::continues))]
    pub fn restart(&mut self, start: u64) -> Result<(), Refusal>
        ensures guaranteed { Guarantees self.old (restarts start) (restarted result) self.new }
        ensures lent { self.new.book.places.ghost_name ≡ self.old.book.places.ghost_name }
        ensures keeps { KeepsPlaces self.old self.new }
    {
        if self.n == 0 {
            return Err(Refusal::NotOpen);
        }
        if is_too_wide(start, self.n) {
            return Err(Refusal::StartOutOfRange);
        }
        self.assignment = Full { word: start };
        Ok(())
    }

    // Line k, counted from 1, oldest first.
    #[tactic(auto, using(crate::proofs::States::line_found, crate::proofs::States::line_none))]
    pub fn line(&self, k: u32) -> Result<Line, Refusal>
        ensures value { line_told result ≡ line_of (state self.now) k }
    {
        if self.n == 0 {
            return Err(Refusal::NotOpen);
        }
        if k == 0 {
            return Err(Refusal::NoSuchLine);
        }
        self.book.get(k as usize - 1).ok_or(Refusal::NoSuchLine)
    }

    // How many variables; 0 unopened.
    pub fn n(&self) -> u32
        ensures value { result ≡ (state self.now).n }
        ensures wide { result ≤ width }
    {
        self.n
    }

    // How many lines the book has; unopened none.
    pub fn lines(&self) -> usize
        ensures value { result ≡ length (state self.now).lines }
    {
        self.book.len()
    }

    // Bit v - 1 is one if v is true; unopened 0.
    pub fn assignment(&self) -> u64
        ensures value { truths (state self.now).n result ≡ (state self.now).assignment }
        ensures low { result < 2 ^ (state self.now).n }
    {
        self.assignment.word
    }
}
