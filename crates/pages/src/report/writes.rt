// Writing a report.
ghost use Rattle.std.specs.Prelude.{◌≤◌, ◌≡◌};
ghost use Rattle.words.specs.Bits.{width};
ghost use Rattle.clauses.specs.Values.{truths};
ghost use Rattle.writing.specs.Pages.{Tells};
ghost use Rattle.pages.specs.Says.{clause_items};
ghost use Rattle.pages.specs.Reports.{literal as literal_of, true_literals, told_of, told_items, verdict_items, refusal_items};

use super::Reporting;
use answers::report::Report;
use answers::run::Outcome;
use clauses::literal::opposite;
use words::sets;
use writing::page::Page;
use writing::written::Written;

// A variable as the literal of it that is true. It is at most 64, so it has an
// opposite.
fn literal(v: u32, is_true: bool) -> i32
    requires { v ≤ width }
    ensures value { result ≡ literal_of v is_true }
{
    let literal = v as i32;
    if is_true {
        literal
    } else {
        opposite(literal).unwrap_or(literal)
    }
}

// The literals that are true, and 0.
fn write_literals(n: u32, word: u64, page: &mut Page<'_>)
    requires { n ≤ width }
    ensures tells { Tells (clause_items (true_literals 1 (truths n word))) page.old page.new }
{
    for k in 0..n {
        let v = k + 1;
        page.signed(literal(v, sets::has(word, v)));
        page.space();
    }
    page.number(0);
    page.end();
}

// A line of two words.
fn write_words(first: &str, second: &str, page: &mut Page<'_>)
    ensures tells { Tells (verdict_items first.now second.now) page.old page.new }
{
    page.word(first);
    page.space();
    page.word(second);
    page.end();
}

// How a run ended, and of a met one its assignment.
fn write_outcome(outcome: Outcome, n: u32, word: u64, page: &mut Page<'_>)
    requires { n ≤ width }
    ensures tells { Tells (told_items (told_of outcome (truths n word))) page.old page.new }
{
    match outcome {
        Outcome::Met => {
            write_words("s", "SATISFIABLE", page);
            page.word("v");
            page.space();
            write_literals(n, word, page);
        }
        Outcome::NoneMeets => write_words("s", "UNSATISFIABLE", page),
        Outcome::Spent | Outcome::Full => write_words("s", "UNKNOWN", page),
    }
}

// A refusal's number and place.
fn write_refusal(number: u32, place: usize, page: &mut Page<'_>)
    ensures tells { Tells (refusal_items number place) page.old page.new }
{
    page.word("c");
    page.space();
    page.word("refused");
    page.space();
    page.number(u64::from(number));
    page.space();
    page.word("at");
    page.space();
    page.number(place as u64);
    page.end();
}

impl Written for Reporting {
    ghost use Rattle.clauses.specs.Values.{truths};
    ghost use Rattle.pages.specs.Reports.{report_items};

    ghost items = { λ s. report_items s.report (truths s.n s.word) };

    fn write(&self, page: &mut Page<'_>) {
        match self.report {
            Report::Ended(outcome) => write_outcome(outcome, self.n, self.word, page),
            Report::Refused { number, place } => write_refusal(number, place, page),
        }
    }
}
