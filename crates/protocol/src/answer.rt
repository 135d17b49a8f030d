// What a call is answered, as a line tells it.
use answers::load::LoadRefusal;
use answers::refusal::Refusal;
use answers::run::Ran;
use lines::line::Line;
use text::faults::TextFault;

#[derive(Drop)]
pub enum Answer {
    Done,
    Refused(Refusal),
    // The number of a clause's line; none where it gets no line.
    Stands(Option<u32>),
    // So many clauses of a text.
    Taken(u32),
    Faulty(LoadRefusal),
    Headed {
        n: u32,
        m: u32,
    },
    HeadFaulty(TextFault),
    Ended(Ran),
    Line(Line),
    // The length of what was written, or why nothing was, and the whole buffer.
    Written {
        length: Result<usize, Refusal>,
        buffer: Vec<u8>,
    },
    State {
        lines: usize,
        n: u32,
        assignment: u64,
    },
    // The line was no call, or there is no session or no memory for it.
    Error,
}
