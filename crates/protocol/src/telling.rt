// An answer as a line.
pub mod laws;

ghost use Rattle.std.specs.Prelude.{◌≡◌, string_bytes, IfOk};
ghost use Rattle.protocol.specs.Commands.{outcome_word};
ghost use Rattle.protocol.specs.Said.{refuser_word, said_words, said_written, spoken, answer_line};

use crate::answer::Answer;
use answers::load::LoadRefusal;
use answers::refusal::Refusal;
use answers::run::{Outcome, Ran};
use lines::line::{Line, Origin};
use std::alloc::{AllocError, Global};
use text::faults::telling::Telling;
use text::faults::{Refuser, TextFault};

// Who refused.
fn refuser_name(refuser: Refuser) -> &'static str
    ensures word { result.now ≡ refuser_word refuser }
{
    match refuser {
        Refuser::Session => "session",
        Refuser::Text => "text",
        Refuser::Book => "book",
    }
}

// How a run ended.
fn outcome_name(outcome: Outcome) -> &'static str
    ensures word { result.now ≡ outcome_word outcome }
{
    match outcome {
        Outcome::Met => "met",
        Outcome::NoneMeets => "none",
        Outcome::Spent => "spent",
        Outcome::Full => "full",
    }
}

fn tell_fault(alloc: Global, refusal: &LoadRefusal) -> Result<String, AllocError>
    ensures line { IfOk result (λ text. string_bytes text
        ≡ answer_line (Answer.Faulty refusal.now)) }
{
    let by = refuser_name(refusal.fault.refuser());
    let number = refusal.fault.number();
    let place = refusal.fault.place();
    let taken = refusal.taken;
    format!(in alloc; "fault {by} {number} at {place} taken {taken}\n")
}

fn tell_line(alloc: Global, line: &Line) -> Result<String, AllocError>
    ensures line { IfOk result (λ text. string_bytes text
        ≡ answer_line (Answer.Line line.now)) }
{
    let pos = line.clause().pos;
    let neg = line.clause().neg;
    match line.origin() {
        Origin::Given => format!(in alloc; "given pos {pos:x} neg {neg:x}\n"),
        Origin::Resolved {
            variable,
            first,
            second,
        } => { format!(in alloc; "resolved {variable} {first} {second} pos {pos:x} neg {neg:x}\n") }
        Origin::Widened { from } => {
            format!(in alloc; "widened {from} pos {pos:x} neg {neg:x}\n")
        }
    }
}

// What was written, or why nothing was.
fn tell_buffer(
    alloc: Global,
    length: &Result<usize, Refusal>,
    buffer: &[u8],
) -> Result<String, AllocError>
    ensures line { IfOk result (λ text. string_bytes text
        ≡ spoken (said_words (said_written length.now buffer.now))) }
{
    let bytes = hex::encode(alloc, buffer)?;
    match length {
        Ok(length) => format!(in alloc; "length {length} {bytes}\n"),
        Err(refusal) => {
            let number = refusal.number();
            format!(in alloc; "refused {number} {bytes}\n")
        }
    }
}

fn tell_text_fault(alloc: Global, fault: &TextFault) -> Result<String, AllocError>
    ensures line { IfOk result (λ text. string_bytes text
        ≡ answer_line (Answer.HeadFaulty fault.now)) }
{
    let number = fault.number();
    let place = fault.place();
    format!(in alloc; "fault text {number} at {place}\n")
}

fn tell_refusal(alloc: Global, refusal: &Refusal) -> Result<String, AllocError>
    ensures line { IfOk result (λ text. string_bytes text
        ≡ answer_line (Answer.Refused refusal.now)) }
{
    let number = refusal.number();
    format!(in alloc; "refused {number}\n")
}

fn tell_run(alloc: Global, ran: &Ran) -> Result<String, AllocError>
    ensures line { IfOk result (λ text. string_bytes text
        ≡ answer_line (Answer.Ended ran.now)) }
{
    let outcome = outcome_name(ran.outcome);
    let steps = ran.steps;
    format!(in alloc; "{outcome} {steps}\n")
}

// The whole line, with its LF.
pub fn tell(alloc: Global, answer: &Answer) -> Result<String, AllocError>
    ensures line { IfOk result (λ text. string_bytes text ≡ answer_line answer.now) }
{
    match answer {
        Answer::Done => format!(in alloc; "ok\n"),
        Answer::Refused(refusal) => tell_refusal(alloc, refusal),
        Answer::Stands(Some(k)) => format!(in alloc; "line {k}\n"),
        Answer::Stands(None) => format!(in alloc; "line none\n"),
        Answer::Taken(taken) => format!(in alloc; "taken {taken}\n"),
        Answer::Faulty(refusal) => tell_fault(alloc, refusal),
        Answer::Headed { n, m } => format!(in alloc; "head {n} {m}\n"),
        Answer::HeadFaulty(fault) => tell_text_fault(alloc, fault),
        Answer::Ended(ran) => tell_run(alloc, ran),
        Answer::Line(line) => tell_line(alloc, line),
        Answer::Written { length, buffer } => tell_buffer(alloc, length, buffer),
        Answer::State {
            lines,
            n,
            assignment,
        } => format!(in alloc; "lines {lines} n {n} assign {assignment:x}\n"),
        Answer::Error => format!(in alloc; "error\n"),
    }
}
