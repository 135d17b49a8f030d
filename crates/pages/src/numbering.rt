// The numbers that the lines of a book have in its sheet.
ghost use Rattle.std.specs.Prelude.{◌≡◌, ◌≤◌, ◌+◌, true, length, min};
ghost use Rattle.lines.specs.Lines.{candidates};
ghost use Rattle.pages.specs.Says.{count_of, given_at, sheet_number};
ghost use Rattle.pages.specs.Numberings.{given_before, Counted};

use lines::line::Line;

// Lines to a stretch that is counted at once.
const STRETCH: usize = 64;

// Stretches of a book of at most 65,536 lines.
const STRETCHES: usize = 1_024;

// How many given lines stand before each stretch, so that a line's number takes
// a look at one stretch or two, however long the book is.
#[derive(Drop)]
pub struct Numbering<'a> {
    lines: &'a [Line],
    before: [usize; STRETCHES],
    ghost counted: { Counted before lines.now 1024 },
    ghost size: { length before ≡ 1024 },
}

// How many of the lines are given.
fn count(lines: &[Line]) -> usize
    ensures value { result ≡ count_of true (candidates lines.now) }
    ensures most { result ≤ length lines.now }
{
    let mut count = 0;
    for line in lines {
        if line.is_given() {
            count += 1;
        }
    }
    count
}

// How many given lines stand from place `from` on and before place `to`.
fn between(lines: &[Line], from: usize, to: usize) -> usize
    requires order { from ≤ to }
    ensures value { given_before lines.now from + result ≡ given_before lines.now to }
    ensures most { given_before lines.now to ≤ min to (length lines.now) }
    ensures fits { length lines.now ≤ usize.MAX }
{
    let end = to.min(lines.len());
    count(&lines[from.min(end)..end])
}

impl<'a> Numbering<'a> {
    pub fn new(lines: &'a [Line]) -> Numbering<'a>
        ensures lines { result.lines.now ≡ lines.now }
    {
        let mut before = [0; STRETCHES];
        let mut total = 0;
        for i in 0..STRETCHES {
            before[i] = total;
            total += between(lines, i * STRETCH, (i + 1) * STRETCH);
        }
        Numbering { lines, before }
    }

    // How many of the first k lines are given.
    fn given_before(&self, k: usize) -> usize
        ensures value { result ≡ given_before self.now.lines.now k }
        ensures most { result ≤ min k (length self.now.lines.now) }
    {
        let i = (k / STRETCH).min(STRETCHES - 1);
        self.before[i] + between(self.lines, i * STRETCH, k)
    }

    // How many lines are given.
    pub fn given(&self) -> u64
        ensures value { result ≡ count_of true (candidates self.now.lines.now) }
        ensures most { result ≤ length self.now.lines.now }
    {
        self.given_before(self.lines.len()) as u64
    }

    // Whether line k is given.
    fn is_given_at(&self, k: usize) -> bool
        ensures value { result ≡ given_at (candidates self.now.lines.now) k }
    {
        match self.lines.get(k.saturating_sub(1)) {
            Some(line) => line.is_given(),
            None => false,
        }
    }

    // The number of line k in the sheet.
    pub fn number(&self, k: u32) -> u64
        ensures value { result ≡ sheet_number (candidates self.now.lines.now) k }
    {
        let k = k as usize;
        let before = self.given_before(k);
        if self.is_given_at(k) {
            return before as u64;
        }
        let others = k.min(self.lines.len()) - before;
        self.given() + others as u64
    }
}
