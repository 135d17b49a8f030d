// A call, as a line of a list names it.
use answers::report::Report;

// No size in a call is more: places, bytes of a text, bytes of a buffer.
pub const MOST_SIZE: usize = 33_554_432;

#[derive(Drop)]
pub enum Call {
    // A new session, unopened, over so many places.
    New(usize),
    Open { n: u32, start: u64 },
    Add(Vec<i32>),
    // The bytes of a text.
    Load(Vec<u8>),
    Head(Vec<u8>),
    Restart(u64),
    Run { guide: GuideName, budget: u32 },
    Line(u32),
    // Into a buffer of so many bytes.
    Sheet(usize),
    Report { report: Report, size: usize },
    State,
}

// A guide by its name.
#[derive(Clone, Copy, PartialEq, Eq, Debug)]
pub enum GuideName {
    Longest,
    Fewest,
    Constant,
    RevFewest,
}
