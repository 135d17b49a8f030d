// The session. Its calls are in session/calls.rt, session/adding.rt,
// session/loading.rt, session/running.rt and session/telling.rt.
ghost use Rattle.std.specs.Prelude.{◌≡◌, ◌≤◌, ◌<◌, ◌^◌, true, length};
ghost use Rattle.limits.specs.Limits.{most_lines};
ghost use Rattle.words.specs.Bits.{width};
ghost use Rattle.lines.specs.Lines.{keeps};
ghost use Rattle.table.specs.Held.{held, places_of};

pub mod adding;
pub mod calls;
pub mod loading;
pub mod running;
pub mod telling;

use lines::line::Line;
use table::filled::Filled;
use valuations::valuation::Full;

// A book over the caller's places, and an assignment of the variables 1 to n.
// Unopened, it has no variables and no lines. What its calls promise as `lent`
// is that it stays over the memory that it was made over.
#[derive(Drop)]
pub struct Session<'a> {
    book: Filled<'a, Line>,
    n: u32,
    assignment: Full,
    // The four facts of its book.
    ghost facts: { keeps n (held book) ≡ true },
    ghost wide: { n ≤ width },
    ghost inside: { assignment.word < 2 ^ n },
    ghost few: { length (held book) ≤ most_lines },
    ghost room: { 0 < n → length (places_of book) ≤ most_lines },
    ghost unopened: { n ≡ 0 → length (held book) ≡ 0 },
}
