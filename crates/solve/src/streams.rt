// From the bytes of a reader to those of a writer.
ghost use Rattle.limits.specs.Limits.{program_bytes};
ghost use Rattle.std.specs.Prelude.{◌≡◌, suc, take, IfSome, IfOk, IfErr, OnOk};
ghost use Rattle.std.specs.Io.KnownBytes.{Appends};
ghost use Rattle.solve.specs.Answers.{output};
ghost use Rattle.solve.specs.Promises.{Unanswered};

use crate::solving::answer;
use limits::PROGRAM_BYTES;
use pages::report::MOST_REPORT;
use std::alloc::Global;
use std::io;
use std::io::{Read, Write};

// Why no answer was written, or not the whole of it.
#[derive(Clone, Copy, PartialEq, Eq, Debug)]
pub enum Failure {
    // The input could not be read to its end, be it for want of memory; that was
    // told.
    Unread,
    // The writer failed: of what it was to write it may have a part.
    Unwritten,
}

// Reads one byte more than is taken, so that longer input shows. The cast is
// exact: 65,536 fits.
fn read_text<R: Read + Drop>(alloc: Global, reader: R) -> io::Result<Vec<u8>>
    ensures text { IfOk result (λ text. IfSome (R.remaining reader)
        (λ input. text.items ≡ take (suc program_bytes) input)) }
{
    let mut text = Vec::new(alloc);
    reader
        .take(PROGRAM_BYTES as u64 + 1)
        .read_to_end(&mut text)?;
    Ok(text)
}

// Tells that there is no answer, where no byte of one was tried.
fn tell_unread<W: Write>(writer: &mut W) -> Failure
    ensures told { Unanswered (W.contents writer.old) (W.contents writer.new) result }
{
    match writer.write_all(b"c the input could not be read\ns UNKNOWN\n") {
        Ok(()) => Failure::Unread,
        Err(_) => Failure::Unwritten,
    }
}

// Reads a text, and writes the answer to it and nothing else, or that there is
// none.
pub fn converse<R: Read + Drop, W: Write>(
    alloc: Global,
    reader: R,
    writer: &mut W,
) -> Result<(), Failure>
    ensures answered { OnOk result (IfSome (R.remaining reader)
        (λ input. Appends (W.contents writer.old) (W.contents writer.new) (output input))) }
    ensures told { IfErr result (Unanswered (W.contents writer.old) (W.contents writer.new)) }
{
    let Ok(text) = read_text(alloc, reader) else {
        return Err(tell_unread(writer));
    };
    let mut buffer = [0; MOST_REPORT];
    let length = answer(text.as_slice(), &mut buffer);
    match writer.write_all(&buffer[..length]) {
        Ok(()) => Ok(()),
        Err(_) => Err(Failure::Unwritten),
    }
}
