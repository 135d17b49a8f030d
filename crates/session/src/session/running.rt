// Runs.
ghost use Rattle.std.specs.Prelude.{◌≡◌, ◌<◌};
ghost use Rattle.histories.specs.Runs.{verdict};
ghost use Rattle.histories.specs.Calls.{runs, ran};
ghost use Rattle.session.specs.Sessions.{state, Steps, Runs, verdict_of, Guarantees, KeepsPlaces};

use super::Session;
use answers::refusal::Refusal;
use answers::run::{Outcome, Ran};
use guides::guide::Guide;
use limits::MOST_STEPS;
use search::due::{Step, due};
use search::looking::{Seen, look};
use weighing::book::Book;
use words::sets;

impl<'a> Session<'a> {
    // What a run sees before a step.
    #[tactic(auto, using(crate::proofs::Stepping::verdict_seen))]
    fn look(&self) -> Seen
        ensures value { verdict (state self.now) ≡ verdict_of result }
    {
        let book = Book {
            lines: self.book.as_slice(),
            n: self.n,
        };
        look(&book, &self.assignment)
    }

    // Makes the step that is due; false where a line is due and no place is
    // free.
    #[tactic(auto, using(weighing::proofs::Neighbours::flipped_word))]
    fn step<G: Guide>(&mut self, guide: &G) -> bool
        requires open { 0 < self.old.n }
        ensures steps { Steps (G.Guide.rank guide.now) self.old result self.new }
        ensures lent { self.new.book.places.ghost_name ≡ self.old.book.places.ghost_name }
        ensures keeps { KeepsPlaces self.old self.new }
        ensures same { self.new.n ≡ self.old.n }
    {
        let book = Book {
            lines: self.book.as_slice(),
            n: self.n,
        };
        match due(&book, &mut self.assignment, guide) {
            Step::Flip(v) => self.assignment.word ^= sets::one(v),
            Step::Accept(read) => self.assignment = read,
            Step::Write(line) => return self.book.push(line).is_ok(),
        }
        true
    }

    // Looks and makes steps, until a verdict, the budget or the book ends it.
    fn go<G: Guide>(&mut self, guide: &G, budget: u32) -> Ran
        requires open { 0 < self.old.n }
        ensures runs { Runs (G.Guide.rank guide.now) budget self.old result self.new }
        ensures lent { self.new.book.places.ghost_name ≡ self.old.book.places.ghost_name }
        ensures keeps { KeepsPlaces self.old self.new }
    {
        let mut steps = 0;
        let outcome = 'run: loop {
            match self.look() {
                Seen::Refuted => break 'run Outcome::NoneMeets,
                Seen::Met => break 'run Outcome::Met,
                Seen::Undecided => {}
            }
            if steps >= budget {
                break 'run Outcome::Spent;
            }
            if !self.step(guide) {
                break 'run Outcome::Full;
            }
            steps += 1;
        };
        Ran { outcome, steps }
    }

    // Searches under a guide, for at most as many steps as the budget.
    #[tactic(auto, using(histories::proofs::Histories::continues))]
    pub fn run<G: Guide>(&mut self, guide: &G, budget: u32) -> Result<Ran, Refusal>
        ensures guaranteed { Guarantees self.old (runs (G.Guide.rank guide.now) budget)
            (ran result) self.new }
        ensures lent { self.new.book.places.ghost_name ≡ self.old.book.places.ghost_name }
        ensures keeps { KeepsPlaces self.old self.new }
    {
        if self.n == 0 {
            return Err(Refusal::NotOpen);
        }
        if budget > MOST_STEPS {
            return Err(Refusal::BudgetTooLarge);
        }
        Ok(self.go(guide, budget))
    }
}
