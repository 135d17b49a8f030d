// The report of an answer as a page. Writing it is in report/writes.rt.
ghost use Rattle.std.specs.Prelude.{◌≤◌, ◌≡◌};
ghost use Rattle.words.specs.Bits.{width};

pub mod writes;

use answers::report::Report;

// A buffer of so many bytes has place for every report.
pub const MOST_REPORT: usize = 274;

// With the assignment of the variables 1 to n: bit v - 1 of the word is one if
// v is true.
#[derive(Clone, Copy)]
pub struct Reporting {
    pub report: Report,
    pub n: u32,
    pub word: u64,
    pub ghost wide: { n ≤ width },
}
