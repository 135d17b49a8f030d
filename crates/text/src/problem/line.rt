// Reading the problem line, word by word.
ghost use Rattle.std.specs.Prelude.{◌≡◌, Some};
ghost use Rattle.text.specs.Problem.{within, expect_piece, head_of};
ghost use Rattle.tokens.specs.Scanning.{piece_at};

use super::{Expected, Progress};
use crate::faults::TextFault;
use crate::reader::Remaining;
use limits::{MOST_BYTES, MOST_CLAUSES, MOST_VARIABLES};
use tokens::stream::{Placed, Token, Tokens};

// A number without minus sign, at most `most`.
fn size(number: i32, most: u32, place: usize) -> Result<u32, TextFault>
    ensures value { result ≡ within most place (Some number) }
{
    match u32::try_from(number) {
        Err(_) => Err(TextFault::NotProblemLine { place }),
        Ok(n) if n > most => Err(TextFault::TooLarge { place }),
        Ok(n) => Ok(n),
    }
}

impl Expected {
    // Takes a token; a comment is passed over. Up to `limit` variables may be.
    // One table of what each word may be, since what is expected outlives a call.
    pub(crate) fn take(self, limit: u32, piece: Placed<'_>) -> Result<Progress, TextFault>
        ensures value { result ≡ expect_piece limit self (piece_at piece.entry) }
    {
        let place = piece.place;
        match (self, piece.token) {
            (e, Token::Comment(_)) => Ok(Progress::Expecting(e)),
            (Expected::ProblemWord, Token::Problem(_)) => Ok(Progress::Expecting(
                Expected::FormatWord,
            )),
            (Expected::FormatWord, Token::Format(_)) => Ok(Progress::Expecting(
                Expected::Variables,
            )),
            (Expected::Variables, Token::Number(_, x)) => {
                let variables = size(x, limit, place)?;
                Ok(Progress::Expecting(Expected::Clauses(variables)))
            }
            (Expected::Clauses(variables), Token::Number(_, x)) => {
                let clauses = size(x, MOST_CLAUSES, place)?;
                Ok(Progress::Complete(Remaining { variables, clauses }))
            }
            (_, _) => Err(TextFault::NotProblemLine { place }),
        }
    }
}

// The numbers of variables and of clauses that a text announces.
pub fn head(text: &[u8]) -> Result<(u32, u32), TextFault>
    ensures value { result ≡ head_of text.now }
{
    if text.len() > MOST_BYTES {
        return Err(TextFault::TooLong);
    }
    let mut expected = Expected::ProblemWord;
    for piece in Tokens::new(text) {
        match expected.take(MOST_VARIABLES, piece)? {
            Progress::Expecting(next) => expected = next,
            Progress::Complete(all) => return Ok((all.variables, all.clauses)),
        }
    }
    Err(TextFault::NotProblemLine { place: text.len() })
}
