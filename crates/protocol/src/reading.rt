// Reading a line into a call.
ghost use Rattle.std.specs.Prelude.{◌≡◌, IfOk};
ghost use Rattle.protocol.specs.Commands.{words_of};
ghost use Rattle.protocol.specs.Reading.{read_words, command_in};

mod calls;
pub mod laws;
mod numbers;
mod texts;

use crate::call::Call;
use std::alloc::{AllocError, Global};

// The call that a line says, if it says one.
pub fn read(alloc: Global, line: &str) -> Result<Option<Call>, AllocError>
    ensures value { IfOk result (λ call. command_in call ≡ read_words (words_of line.now)) }
{
    let words: Vec<&str> = line.split(' ').collect(alloc)?;
    match words.split_first() {
        Some((name, others)) => calls::call(alloc, name, others),
        None => Ok(None),
    }
}
