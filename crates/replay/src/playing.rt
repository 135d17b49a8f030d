// One call of a session, and what it is answered.
ghost use Rattle.std.specs.Prelude.{◌≡◌, IfOk, IfErr};
ghost use Rattle.histories.specs.Calls.{runs, ran};
ghost use Rattle.session.specs.Sessions.{state, Guarantees, KeepsPlaces};
ghost use Rattle.protocol.specs.Commands.{command};
ghost use Rattle.protocol.specs.Said.{said};
ghost use Rattle.replay.specs.Playing.{rank_of, said_sheet, said_report, Plays};

use crate::answering;
use crate::guiding::{Constant, RevFewest};
use answers::refusal::Refusal;
use answers::report::Report;
use answers::run::Ran;
use guides::fewest::FewestBroken;
use guides::longest::LongestFirst;
use protocol::answer::Answer;
use protocol::call::{Call, GuideName};
use session::session::Session;
use std::alloc::{AllocError, Global};
use text::problem::line::head;

// What each byte of a buffer is before a call writes into it.
const BLANK: u8 = 0xaa;

fn run(session: &mut Session<'_>, guide: GuideName, budget: u32) -> Result<Ran, Refusal>
    ensures guaranteed { Guarantees session.old (runs (rank_of guide) budget)
        (ran result) session.new }
    ensures keeps { KeepsPlaces session.old session.new }
{
    match guide {
        GuideName::Longest => session.run(&LongestFirst, budget),
        GuideName::Fewest => session.run(&FewestBroken, budget),
        GuideName::Constant => session.run(&Constant, budget),
        GuideName::RevFewest => session.run(&RevFewest, budget),
    }
}

fn sheet(alloc: Global, session: &Session<'_>, size: usize) -> Result<Answer, AllocError>
    ensures says { IfOk result (λ answer. said answer ≡ said_sheet (state session.now) size) }
{
    let mut buffer = vec![in alloc; BLANK; size]?;
    let length = session.sheet(&mut buffer);
    Ok(Answer::Written { length, buffer })
}

fn report(
    alloc: Global,
    session: &Session<'_>,
    report: Report,
    size: usize,
) -> Result<Answer, AllocError>
    ensures says { IfOk result (λ answer. said answer
        ≡ said_report (state session.now) report size) }
{
    let mut buffer = vec![in alloc; BLANK; size]?;
    let length = session.report(report, &mut buffer);
    Ok(Answer::Written { length, buffer })
}

// Plays a call. For want of memory it is not played, and the session is as it
// was.
pub fn play(alloc: Global, session: &mut Session<'_>, call: &Call) -> Result<Answer, AllocError>
    ensures plays { IfOk result (λ answer. Plays session.old (command call.now)
        (said answer) session.new) }
    ensures keeps { KeepsPlaces session.old session.new }
    ensures kept { IfErr result (λ _. session.new ≡ session.old) }
{
    match call {
        Call::New(_) => Ok(Answer::Error),
        Call::Open { n, start } => Ok(answering::done(session.open(*n, *start))),
        Call::Add(numbers) => Ok(answering::added(session.add(numbers.as_slice()))),
        Call::Load(text) => Ok(answering::loaded(session.load(text.as_slice()))),
        Call::Head(text) => Ok(answering::headed(head(text.as_slice()))),
        Call::Restart(start) => Ok(answering::done(session.restart(*start))),
        Call::Run { guide, budget } => Ok(answering::ran(run(session, *guide, *budget))),
        Call::Line(k) => Ok(answering::line(session.line(*k))),
        Call::Sheet(size) => sheet(alloc, session, *size),
        Call::Report { report, size } => self::report(alloc, session, *report, *size),
        Call::State => Ok(Answer::State {
            lines: session.lines(),
            n: session.n(),
            assignment: session.assignment(),
        }),
    }
}
