// The words and comments of a text, one after another. The scan is in
// stream/scan.rt.
ghost use Rattle.std.specs.Prelude.{◌≤◌, length};
ghost use Rattle.tokens.specs.Kinds.{Kind, Kind-prop};

pub mod scan;

// A part of the text: a number word with its number, a word of the problem
// line, a comment, or a word of no such kind.
#[derive(Clone, Copy)]
pub enum Token<'a> {
    Number(&'a [u8], i32),
    // The word p.
    Problem(&'a [u8]),
    // The word cnf.
    Format(&'a [u8]),
    Comment(&'a [u8]),
    Other(&'a [u8]),
}

// A token, and the place of its first byte, counted from 0. It is of the kind
// that its word is.
#[derive(Clone, Copy)]
pub struct Placed<'a> {
    pub place: usize,
    pub token: Token<'a>,
    pub ghost kind: { Kind token } by { Kind-prop token },
}

// How far a text has been cut into tokens. `early`: no word p was among them,
// so a line that begins with c is a comment.
#[derive(Clone, Copy)]
pub struct Tokens<'a> {
    pub(crate) text: &'a [u8],
    pub(crate) at: usize,
    pub(crate) early: bool,
    pub ghost within: { at ≤ length text.now },
}
