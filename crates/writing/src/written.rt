// What can be written as a page, and writing it: the length first.
ghost use Rattle.std.specs.Prelude.{◌≡◌, List, length, min};
ghost use Rattle.writing.specs.Items.{Item, bytes, most};
ghost use Rattle.writing.specs.Pages.{Tells, filled};

use crate::page::Page;

// The buffer is shorter than the page.
#[derive(Clone, Copy, PartialEq, Eq, Debug)]
pub struct TooShort;

pub trait Written {
    // What it says.
    ghost items: { Self → List Item };

    // Puts it at the end of a page.
    fn write(&self, page: &mut Page<'_>)
        ensures tells { Tells (items self.now) page.old page.new };
}

// How many bytes it has.
pub fn length<T: Written>(x: &T) -> usize
    ensures value { result ≡ min (length (bytes (T.items x.now))) most }
{
    let mut none = [];
    let mut page = Page::new(&mut none);
    x.write(&mut page);
    page.len()
}

// Writes it into the front of a buffer and tells its length; bytes after it
// stay. A buffer that is too short keeps every byte.
pub fn write<T: Written>(x: &T, buffer: &mut [u8]) -> Result<usize, TooShort>
    ensures value { filled (bytes (T.items x.now)) buffer.old ≡ (result, buffer.new) }
{
    let len = length(x);
    if len > buffer.len() {
        return Err(TooShort);
    }
    let mut page = Page::new(buffer);
    x.write(&mut page);
    Ok(len)
}
