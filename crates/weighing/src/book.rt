// A book as the steps read it.
ghost use Rattle.std.specs.Prelude.{◌≡◌, ◌≤◌, true, length, is_some, IfSome};
ghost use Rattle.std.specs.List.{list_all};
ghost use Rattle.limits.specs.Limits.{most_lines};
ghost use Rattle.words.specs.Bits.{width};
ghost use Rattle.clauses.specs.Clauses.{within};
ghost use Rattle.lines.specs.Lines.{clause_of, clauses};
ghost use Rattle.weighing.specs.Readable.{readable};

use limits::MOST_LINES;
use lines::line::Line;
use words::sets::{self, WIDTH};

// The lines of a book over the variables 1 to n, oldest first. So few lines
// that a row can count them, so few variables that a word has them all, and
// no line has others.
#[derive(Clone, Copy)]
pub struct Book<'a> {
    pub lines: &'a [Line],
    pub n: u32,
    pub ghost few: { length lines.now ≤ most_lines },
    pub ghost wide: { n ≤ width },
    pub ghost inside: { list_all (within n) (clauses lines.now) ≡ true },
}

// Whether the line has no variable above n.
#[tactic(auto, using(crate::proofs::Within::within_words))]
fn is_within(line: &Line, n: u32) -> bool
    ensures value { result ≡ within n (clause_of line.now) }
{
    let clause = line.clause();
    (clause.pos | clause.neg) & !sets::mask(n) == 0
}

// Whether no line has one.
fn all_within(lines: &[Line], n: u32) -> bool
    ensures value { result ≡ list_all (λ l. within n (clause_of l)) lines.now }
{
    lines.iter().all(|line| is_within(line, n))
}

impl<'a> Book<'a> {
    // The lines as a book over the variables 1 to n; none where there are more
    // than 65,536 lines, n is above 64, or a line has a variable above n.
    #[tactic(auto, using(crate::proofs::Within::all_lines))]
    pub fn new(lines: &'a [Line], n: u32) -> Option<Book<'a>>
        ensures value { is_some result ≡ readable n lines.now }
        ensures same { IfSome result (λ b. (b.lines.now ≡ lines.now) × (b.n ≡ n)) }
    {
        if lines.len() > MOST_LINES || n > WIDTH || !all_within(lines, n) {
            return None;
        }
        Some(Book { lines, n })
    }
}
