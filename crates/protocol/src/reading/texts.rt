// Texts as single words.
ghost use Rattle.std.specs.Prelude.{◌≡◌, ◌≤◌, IfOk, IfSome, length, replicate, option_map};
ghost use Rattle.protocol.specs.Reading.{hex_of, front_of, padding_of, padded_of, short, text_of};

use super::numbers::natural;
use crate::call::MOST_SIZE;
use hex::FromHexError;
use std::alloc::{AllocError, Global};

// The bytes that a word is in lower-case digits.
#[tactic(auto, using(crate::proofs::Texts::hex_of_minus, crate::proofs::Texts::hex_of_digits))]
fn plain(alloc: Global, word: &str) -> Result<Option<Vec<u8>>, AllocError>
    ensures value { IfOk result (λ text. option_map (λ v. v.items) text ≡ hex_of word.now) }
{
    if word == "-" {
        return Ok(Some(Vec::new(alloc)));
    }
    let bytes = match hex::decode(alloc, word) {
        Ok(bytes) => bytes,
        Err(FromHexError::OutOfMemory) => return Err(AllocError),
        Err(_) => return Ok(None),
    };
    let written = hex::encode(alloc, &bytes)?;
    if word == written.as_str() && !bytes.is_empty() {
        Ok(Some(bytes))
    } else {
        Ok(None)
    }
}

fn front(alloc: Global, word: &str) -> Result<Option<Vec<u8>>, AllocError>
    ensures value { IfOk result (λ text. option_map (λ v. v.items) text ≡ front_of word.now) }
{
    if word.is_empty() {
        Ok(Some(Vec::new(alloc)))
    } else {
        plain(alloc, word)
    }
}

// A byte and how often it comes.
fn padding(alloc: Global, word: &str) -> Result<Option<(u8, usize)>, AllocError>
    ensures value { IfOk result (λ p. option_map (λ x. replicate x.1 x.0) p ≡ padding_of word.now) }
    ensures bounded { IfOk result (λ p. IfSome p (λ x. x.1 ≤ MOST_SIZE)) }
{
    let Some((digits, count)) = word.split_once('*') else {
        return Ok(None);
    };
    let Some(bytes) = plain(alloc, digits)? else {
        return Ok(None);
    };
    let Some(count) = natural(count, MOST_SIZE) else {
        return Ok(None);
    };
    match bytes.as_slice() {
        [byte] => Ok(Some((*byte, count))),
        _ => Ok(None),
    }
}

fn padded(alloc: Global, word: &str, rest: &str) -> Result<Option<Vec<u8>>, AllocError>
    ensures value { IfOk result (λ text.
        option_map (λ v. v.items) text ≡ short (padded_of word.now rest.now)) }
{
    let Some(mut text) = front(alloc, word)? else {
        return Ok(None);
    };
    let Some((byte, count)) = padding(alloc, rest)? else {
        return Ok(None);
    };
    let len = text.len() + count;
    if len > MOST_SIZE {
        return Ok(None);
    }
    text.resize(len, byte)?;
    Ok(Some(text))
}

// The text that a word is.
pub fn text(alloc: Global, word: &str) -> Result<Option<Vec<u8>>, AllocError>
    ensures value { IfOk result (λ text. option_map (λ v. v.items) text ≡ text_of word.now) }
{
    match word.split_once('+') {
        Some((front, rest)) => padded(alloc, front, rest),
        None => Ok(plain(alloc, word)?.filter(|text| text.len() <= MOST_SIZE)),
    }
}
