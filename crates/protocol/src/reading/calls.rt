// The words of a line as a call.
ghost use Rattle.std.specs.Prelude.{◌≡◌, IfOk, map, option_map, option_and_then};
ghost use Rattle.protocol.specs.Commands.{restarts};
ghost use Rattle.protocol.specs.Reading.{lone as lone_of, hexadecimal_of, text_of, of_one, small_of, guide_of, outcome_of, opening_of, running_of, report_of, plain_of, call_of, command_in};

use super::numbers::{hexadecimal, integers, natural};
use super::texts::text;
use crate::call::{Call, GuideName, MOST_SIZE};
use answers::report::Report;
use answers::run::Outcome;
use std::alloc::{AllocError, Global};

fn lone<'a>(words: &[&'a str]) -> Option<&'a str>
    ensures value { option_map (λ w. w.now) result ≡ lone_of (map (λ w. w.now) words.now) }
{
    match words {
        [word] => Some(*word),
        _ => None,
    }
}

// A number of 32 bits.
fn small(word: &str) -> Option<u32>
    ensures value { result ≡ small_of word.now }
{
    natural(word, u32::MAX as usize).map(|n| n as u32)
}

fn guide(word: &str) -> Option<GuideName>
    ensures value { result ≡ guide_of word.now }
{
    match word {
        "longest" => Some(GuideName::Longest),
        "fewest" => Some(GuideName::Fewest),
        "const" => Some(GuideName::Constant),
        "revfewest" => Some(GuideName::RevFewest),
        _ => None,
    }
}

fn outcome(word: &str) -> Option<Outcome>
    ensures value { result ≡ outcome_of word.now }
{
    match word {
        "met" => Some(Outcome::Met),
        "none" => Some(Outcome::NoneMeets),
        "spent" => Some(Outcome::Spent),
        "full" => Some(Outcome::Full),
        _ => None,
    }
}

fn running(words: &[&str]) -> Option<Call>
    ensures value { command_in result ≡ running_of (map (λ w. w.now) words.now) }
{
    match words {
        [name, budget] => Some(Call::Run {
            guide: guide(name)?,
            budget: small(budget)?,
        }),
        _ => None,
    }
}

fn report(words: &[&str]) -> Option<Call>
    ensures value { command_in result ≡ report_of (map (λ w. w.now) words.now) }
{
    match words {
        [ended, size] => Some(Call::Report {
            report: Report::Ended(outcome(ended)?),
            size: natural(size, MOST_SIZE)?,
        }),
        [fault, number, place, size] if *fault == "fault" => Some(Call::Report {
            report: Report::Refused {
                number: small(number)?,
                place: natural(place, usize::MAX)?,
            },
            size: natural(size, MOST_SIZE)?,
        }),
        _ => None,
    }
}

// The calls that need no memory to be read.
fn plain(name: &str, words: &[&str]) -> Option<Call>
    ensures value { command_in result ≡ plain_of name.now (map (λ w. w.now) words.now) }
{
    match name {
        "new" => Some(Call::New(natural(lone(words)?, MOST_SIZE)?)),
        "run" => running(words),
        "line" => Some(Call::Line(small(lone(words)?)?)),
        "sheet" => Some(Call::Sheet(natural(lone(words)?, MOST_SIZE)?)),
        "report" => report(words),
        "state" => words.is_empty().then_some(Call::State),
        _ => None,
    }
}

fn opening(alloc: Global, words: &[&str]) -> Result<Option<Call>, AllocError>
    ensures value { IfOk result (λ call.
        command_in call ≡ opening_of (map (λ w. w.now) words.now)) }
{
    let [variables, start] = words else {
        return Ok(None);
    };
    let Some(n) = small(variables) else {
        return Ok(None);
    };
    Ok(hexadecimal(alloc, start)?.map(|start| Call::Open { n, start }))
}

fn restart(alloc: Global, words: &[&str]) -> Result<Option<Call>, AllocError>
    ensures value { IfOk result (λ call.
        command_in call ≡ of_one restarts hexadecimal_of (map (λ w. w.now) words.now)) }
{
    let Some(start) = lone(words) else {
        return Ok(None);
    };
    Ok(hexadecimal(alloc, start)?.map(Call::Restart))
}

// The text that is the only word.
fn lone_text(alloc: Global, words: &[&str]) -> Result<Option<Vec<u8>>, AllocError>
    ensures value { IfOk result (λ found.
        option_map (λ v. v.items) found
        ≡ option_and_then text_of (lone_of (map (λ w. w.now) words.now))) }
{
    match lone(words) {
        Some(word) => text(alloc, word),
        None => Ok(None),
    }
}

// The call of a name and the words behind it.
pub fn call(alloc: Global, name: &str, words: &[&str]) -> Result<Option<Call>, AllocError>
    ensures value { IfOk result (λ call.
        command_in call ≡ call_of name.now (map (λ w. w.now) words.now)) }
{
    match name {
        "open" => opening(alloc, words),
        "restart" => restart(alloc, words),
        "add" => Ok(integers(alloc, words)?.map(Call::Add)),
        "load" => Ok(lone_text(alloc, words)?.map(Call::Load)),
        "head" => Ok(lone_text(alloc, words)?.map(Call::Head)),
        _ => Ok(plain(name, words)),
    }
}
