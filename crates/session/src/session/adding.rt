// Adding a clause.
ghost use Rattle.std.specs.Prelude.{◌≡◌, ◌<◌, true};
ghost use Rattle.clauses.specs.Clauses.{clean, within};
ghost use Rattle.lines.specs.Lines.{clause_of, given};
ghost use Rattle.histories.specs.Calls.{adds, added};
ghost use Rattle.session.specs.Sessions.{Accepts, Enters, Guarantees, KeepsPlaces};

use super::Session;
use answers::refusal::Refusal;
use limits::MOST_LITERALS;
use lines::book::number;
use lines::given::given_line;
use lines::line::Line;

impl<'a> Session<'a> {
    // Enters a given line: the number of the line that is its clause already,
    // else of a new one. The casts are exact, since a book has at most 65,536
    // lines.
    #[tactic(auto, using(crate::proofs::Entering::stands))]
    fn enter(&mut self, line: Line) -> Result<Option<u32>, Refusal>
        requires open { 0 < self.old.n }
        requires given { given line.origin ≡ true }
        requires clean { clean (clause_of line) ≡ true }
        requires within { within self.old.n (clause_of line) ≡ true }
        ensures enters { Enters self.old line result self.new }
        ensures lent { self.new.book.places.ghost_name ≡ self.old.book.places.ghost_name }
        ensures keeps { KeepsPlaces self.old self.new }
        ensures same { self.new.n ≡ self.old.n }
    {
        if let Some(k) = number(self.book.as_slice(), &line.clause()) {
            return Ok(Some(k as u32));
        }
        match self.book.push(line) {
            Ok(i) => Ok(Some(i as u32 + 1)),
            Err(_) => Err(Refusal::NoFreePlace),
        }
    }

    // Takes a clause, given as signed numbers.
    pub(crate) fn accept(&mut self, numbers: &[i32]) -> Result<Option<u32>, Refusal>
        requires open { 0 < self.old.n }
        ensures accepts { Accepts self.old numbers.now result self.new }
        ensures lent { self.new.book.places.ghost_name ≡ self.old.book.places.ghost_name }
        ensures keeps { KeepsPlaces self.old self.new }
        ensures same { self.new.n ≡ self.old.n }
    {
        match given_line(numbers, self.n) {
            Err(_) => Err(Refusal::NoLiteral),
            Ok(None) => Ok(None),
            Ok(Some(line)) => self.enter(line),
        }
    }

    // Takes a clause. None: every assignment meets it, so it gets no line; else
    // the number of its line, an old one where it is in the book.
    #[tactic(auto, using(histories::proofs::Histories::continues))]
    pub fn add(&mut self, numbers: &[i32]) -> Result<Option<u32>, Refusal>
        ensures guaranteed { Guarantees self.old (adds numbers.now) (added result) self.new }
        ensures lent { self.new.book.places.ghost_name ≡ self.old.book.places.ghost_name }
        ensures keeps { KeepsPlaces self.old self.new }
    {
        if self.n == 0 {
            return Err(Refusal::NotOpen);
        }
        if numbers.len() > MOST_LITERALS {
            return Err(Refusal::TooManyNumbers);
        }
        self.accept(numbers)
    }
}
