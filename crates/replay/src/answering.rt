// A call's own result as an answer.
ghost use Rattle.std.specs.Prelude.{◌≡◌};
ghost use Rattle.protocol.specs.Said.{said};
ghost use Rattle.replay.specs.Playing.{said_done, said_added, said_loaded, said_headed, said_ran, said_line};

use answers::load::LoadRefusal;
use answers::refusal::Refusal;
use answers::run::Ran;
use lines::line::Line;
use protocol::answer::Answer;
use text::faults::TextFault;

pub fn done(answered: Result<(), Refusal>) -> Answer
    ensures says { said result ≡ said_done answered }
{
    match answered {
        Ok(()) => Answer::Done,
        Err(refusal) => Answer::Refused(refusal),
    }
}

pub fn added(answered: Result<Option<u32>, Refusal>) -> Answer
    ensures says { said result ≡ said_added answered }
{
    match answered {
        Ok(line) => Answer::Stands(line),
        Err(refusal) => Answer::Refused(refusal),
    }
}

pub fn loaded(answered: Result<u32, LoadRefusal>) -> Answer
    ensures says { said result ≡ said_loaded answered }
{
    match answered {
        Ok(taken) => Answer::Taken(taken),
        Err(refusal) => Answer::Faulty(refusal),
    }
}

pub fn headed(answered: Result<(u32, u32), TextFault>) -> Answer
    ensures says { said result ≡ said_headed answered }
{
    match answered {
        Ok((n, m)) => Answer::Headed { n, m },
        Err(fault) => Answer::HeadFaulty(fault),
    }
}

pub fn ran(answered: Result<Ran, Refusal>) -> Answer
    ensures says { said result ≡ said_ran answered }
{
    match answered {
        Ok(ran) => Answer::Ended(ran),
        Err(refusal) => Answer::Refused(refusal),
    }
}

pub fn line(answered: Result<Line, Refusal>) -> Answer
    ensures says { said result ≡ said_line answered }
{
    match answered {
        Ok(line) => Answer::Line(line),
        Err(refusal) => Answer::Refused(refusal),
    }
}
