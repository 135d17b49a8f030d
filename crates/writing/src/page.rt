// A page: bytes that go into a lent buffer one after another, and are counted.
// Its calls are in page/calls.rt.
ghost use Rattle.std.specs.Prelude.{◌≤◌, length};
ghost use Rattle.writing.specs.Items.{most};

pub mod calls;

// A piece that does not fit into the buffer is counted and not written: a page
// over no bytes tells the length alone. A page is made by `length` and `write`
// alone, and the second only where all of it fits.
#[derive(Drop)]
pub struct Page<'a> {
    buffer: &'a mut [u8],
    len: usize,
    ghost small: { length buffer.now ≤ most },
    ghost counted: { len ≤ most },
}
