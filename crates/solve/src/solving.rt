// Solving a text: a session over a book of its own, opened, loaded and run.
ghost use Rattle.std.specs.Prelude.{◌≡◌, Ok, length, take};
ghost use Rattle.limits.specs.Limits.{program_places};
ghost use Rattle.writing.specs.Pages.{filled};
ghost use Rattle.histories.specs.States.{unopened};
ghost use Rattle.session.specs.Sessions.{state, places as places_in};
ghost use Rattle.solve.specs.Promises.{Solves, SaysSo, Tells};
ghost use Rattle.solve.specs.Answers.{told_in, report_of, solved, output};

use crate::fault::Fault;
use answers::report::Report;
use answers::run::Outcome;
use clauses::clause::Clause;
use guides::longest::LongestFirst;
use limits::{PROGRAM_BYTES, PROGRAM_PLACES, PROGRAM_STEPS};
use lines::line::Line;
use pages::report::MOST_REPORT;
use session::session::Session;
use text::faults::telling::Telling;
use text::problem::line::head;

// The calls: how the run ends, or why one of them is refused.
fn play(text: &[u8], session: &mut Session<'_>) -> Result<Outcome, Fault>
    requires unopened { state session.old ≡ unopened }
    requires places { places_in session.old ≡ program_places }
    ensures value { told_in result (state session.new) ≡ solved text.now }
{
    if text.len() > PROGRAM_BYTES {
        return Err(Fault::TooMuchInput);
    }
    let (variables, _) = head(text)?;
    session.open(variables, 0)?;
    session.load(text)?;
    let ran = session.run(&LongestFirst, PROGRAM_STEPS)?;
    Ok(ran.outcome)
}

// What is reported of them.
fn report(played: &Result<Outcome, Fault>) -> Report
    ensures value { result ≡ report_of played.now }
{
    match played {
        Ok(outcome) => Report::Ended(*outcome),
        Err(fault) => Report::Refused {
            number: u32::from(fault.number()),
            place: fault.place(),
        },
    }
}

// Writes the answer to a text into the front of a buffer, and tells its length;
// bytes after it stay.
#[tactic(auto, using(crate::proofs::Telling::solves, crate::proofs::Telling::says_so, crate::proofs::Told::tells_there))]
pub fn answer(text: &[u8], buffer: &mut [u8; MOST_REPORT]) -> usize
    ensures value { filled (output text.now) buffer.old ≡ (Ok result, buffer.new) }
    ensures solves { Solves text.now (solved text.now) }
    ensures said { SaysSo text.now (solved text.now) }
    ensures tells { Tells text.now (take result buffer.new) }
{
    let mut places = [Line::given(Clause { pos: 0, neg: 0 }); PROGRAM_PLACES];
    let mut session = Session::new(&mut places);
    let played = play(text, &mut session);
    session.report(report(&played), buffer).unwrap_or(0)
}
