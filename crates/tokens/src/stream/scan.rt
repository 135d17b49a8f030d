// Cutting a text into tokens, from left to right. The scan never goes back; the
// bytes of a word are looked at again to tell its kind.
ghost use Rattle.std.specs.Prelude.{◌≡◌, ◌<◌, ◌≤◌, ◌∷◌, true, false, drop, not, length, ◌==◌};
ghost use Rattle.std.specs.Iterator.{at_most};
ghost use Rattle.std.specs.List.{prefix_len};
ghost use Rattle.std.specs.Str.{bytes_eq};
ghost use Rattle.tokens.specs.Kinds.{Kind};
ghost use Rattle.tokens.specs.Words.{parts_words, ends_line, early_after, pieces};
ghost use Rattle.tokens.specs.Scanning.{GapEnds, opens_here, coming, piece_at, IsWord, Told};

use super::{Placed, Token, Tokens};
use crate::numbers::number;

// Few bytes of a word are at most a blank, so that test alone mostly decides.
fn parts(b: u8) -> bool
    ensures value { result ≡ parts_words b }
{
    b <= b' ' && matches!(b, b' ' | b'\t' | b'\r' | b'\n')
}

// Three counts and not one over the test: that one stays unproved, since no
// search follows the count through a test that is a parameter.

// How many bytes of a gap stand here, before the first that parts no words.
fn gap_len(bytes: &[u8]) -> usize
    ensures value { result ≡ prefix_len parts_words bytes.now }
    ensures bound { result ≤ length bytes.now }
{
    bytes.iter().take_while(|b| parts(**b)).count()
}

// How many bytes of a word stand here.
fn word_len(bytes: &[u8]) -> usize
    ensures value { result ≡ prefix_len (λ b. not (parts_words b)) bytes.now }
{
    bytes.iter().take_while(|b| !parts(**b)).count()
}

// How many bytes of a line stand here, without its LF. Not inlined: inlined
// where a comment begins, its loop over the bytes was a slower one.
#[inline(never)]
fn line_len(bytes: &[u8]) -> usize
    ensures value { result ≡ prefix_len (λ b. not (ends_line b)) bytes.now }
{
    bytes.iter().take_while(|b| **b != b'\n').count()
}

// Whether comments may still come after a word.
fn early_after(early: bool, word: &[u8]) -> bool
    ensures value { result ≡ early_after early word.now }
{
    early && word != b"p".as_slice()
}

// The token that a word is.
fn classify<'a>(word: &'a [u8]) -> Token<'a>
    ensures bytes { IsWord result word.now }
    ensures kind { Kind result }
{
    match word {
        b"p" => Token::Problem(word),
        b"cnf" => Token::Format(word),
        _ => match number(word) {
            Some(x) => Token::Number(word, x),
            None => Token::Other(word),
        },
    }
}

impl<'a> Tokens<'a> {
    // Nothing of the text is read yet.
    #[tactic(auto, using(crate::proofs::Lines::pieces_scanned))]
    pub fn new(text: &'a [u8]) -> Tokens<'a>
        ensures text { result.text.now ≡ text.now }
        ensures coming { coming result ≡ pieces text.now }
    {
        Tokens {
            text,
            at: 0,
            early: true,
        }
    }

    // How many bytes the text has.
    pub fn text_len(&self) -> usize
        ensures value { result ≡ length self.now.text.now }
    {
        self.text.len()
    }

    // The bytes from here on.
    fn rest(&self) -> &'a [u8]
        ensures value { result.now ≡ drop self.now.at self.now.text.now }
    {
        let text = self.text;
        &text[self.at..]
    }

    // Goes on to the next word or comment, or to the text's end.
    #[tactic(auto, using(crate::proofs::Gaps::gap_passed, crate::proofs::Gaps::gap_stops, crate::proofs::Gaps::none_left))]
    fn skip_gap(&mut self)
        ensures text { self.new.text ≡ self.old.text }
        ensures same { coming self.new ≡ coming self.old }
        ensures stops { GapEnds self.new }
    {
        self.at += gap_len(self.rest());
    }

    // Whether a comment begins here.
    fn opens_comment(&self) -> bool
        ensures value { result ≡ opens_here self.now }
    {
        let text = self.text;
        let at = self.at;
        self.early && (at == 0 || text[at - 1] == b'\n') && text.get(at) == Some(&b'c')
    }

    // The comment that begins here. That the text stays ties what is there after
    // a call to what was before, which no invariant of a value says.
    #[inline(always)]
    #[tactic(auto, using(crate::proofs::Gaps::within, crate::proofs::Gaps::first_comment))]
    fn comment(&mut self) -> Placed<'a>
        requires within { self.old.at < length self.old.text.now }
        requires begins { GapEnds self.old }
        requires opens { opens_here self.old ≡ true }
        ensures text { self.new.text ≡ self.old.text }
        ensures first { coming self.old ≡ piece_at result ∷ coming self.new }
    {
        let place = self.at;
        let rest = self.rest();
        let line = &rest[..line_len(rest)];
        self.at += line.len();
        let token = Token::Comment(line);
        Placed { place, token }
    }

    // The word that begins here.
    #[inline(always)]
    #[tactic(auto, using(crate::proofs::Gaps::within, crate::proofs::Gaps::first_word))]
    fn word(&mut self) -> Placed<'a>
        requires within { self.old.at < length self.old.text.now }
        requires begins { GapEnds self.old }
        requires opens { opens_here self.old ≡ false }
        ensures text { self.new.text ≡ self.old.text }
        ensures first { coming self.old ≡ piece_at result ∷ coming self.new }
    {
        let place = self.at;
        let rest = self.rest();
        let word = &rest[..word_len(rest)];
        self.at += word.len();
        self.early = early_after(self.early, word);
        let token = classify(word);
        Placed { place, token }
    }
}

// The words and comments that are still to come.
impl<'a> Iterator for Tokens<'a> {
    type Item = Placed<'a>;

    ghost next_gives = { λ s r t. (t.text.now ≡ s.text.now) × Told (coming s) r (coming t) };

    ghost remaining = { λ s. at_most (length (coming s)) };

    // Inlined, so that no token is written down to be read again.
    #[inline(always)]
    fn next(&mut self) -> Option<Placed<'a>> {
        self.skip_gap();
        if self.at == self.text.len() {
            return None;
        }
        if self.opens_comment() {
            Some(self.comment())
        } else {
            Some(self.word())
        }
    }
}
