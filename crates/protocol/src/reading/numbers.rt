// Numbers as single words, written in the one way that they are printed.
ghost use Rattle.std.specs.Prelude.{◌≡◌, ◌≤◌, IfOk, IfSome, map, option_map};
ghost use Rattle.protocol.specs.Reading.{natural_of, hexadecimal_of, integer_of, integers_of};

use itoa::Buffer;
use std::alloc::{AllocError, Global};

// The number up to `most` that a word is in decimal.
pub fn natural(word: &str, most: usize) -> Option<usize>
    ensures value { result ≡ natural_of most word.now }
    ensures bounded { IfSome result (λ n. n ≤ most) }
{
    let n = word.parse::<usize>().ok()?;
    let mut buffer = Buffer::new();
    if word == buffer.format(n) && n <= most {
        Some(n)
    } else {
        None
    }
}

// The number that a word is in hexadecimal.
#[tactic(auto, using(crate::proofs::Numerals::hexadecimal_read))]
pub fn hexadecimal(alloc: Global, word: &str) -> Result<Option<u64>, AllocError>
    ensures value { IfOk result (λ n. n ≡ hexadecimal_of word.now) }
{
    let Ok(n) = u64::from_str_radix(word, 16) else {
        return Ok(None);
    };
    let written = format!(in alloc; "{n:x}")?;
    Ok(if word == written.as_str() {
        Some(n)
    } else {
        None
    })
}

// The number with a sign that a word is.
#[tactic(auto, using(crate::proofs::Numerals::integer_read))]
fn integer(word: &str) -> Option<i32>
    ensures value { result ≡ integer_of word.now }
{
    let n = word.parse::<i32>().ok()?;
    let mut buffer = Buffer::new();
    if word == buffer.format(n) {
        Some(n)
    } else {
        None
    }
}

// The numbers that some words are, each with its sign.
pub fn integers(alloc: Global, words: &[&str]) -> Result<Option<Vec<i32>>, AllocError>
    ensures value { IfOk result (λ numbers.
        option_map (λ v. v.items) numbers ≡ integers_of (map (λ w. w.now) words.now)) }
{
    let mut numbers = Vec::new(alloc);
    for word in words {
        match integer(word) {
            Some(n) => numbers.push(n)?,
            None => return Ok(None),
        }
    }
    Ok(Some(numbers))
}
