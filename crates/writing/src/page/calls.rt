// What can be put on a page.
ghost use Rattle.std.specs.Prelude.{◌≡◌, [], ◌∷◌};
ghost use Rattle.writing.specs.Items.{number as number_item, natural, word as word_item, space as space_item, line_end as end_item};
ghost use Rattle.writing.specs.Pages.{Wrote, Tells};

use super::Page;
use itoa::Buffer;

impl<'a> Page<'a> {
    pub(crate) fn new(buffer: &'a mut [u8]) -> Page<'a>
        ensures empty { result.len ≡ 0 }
        ensures buffer { result.buffer.now ≡ buffer.old }
        ensures lent { result.buffer.ghost_name ≡ buffer.entry.ghost_name }
    {
        Page { buffer, len: 0 }
    }

    // How many bytes it has.
    pub(crate) fn len(&self) -> usize
        ensures value { result ≡ self.now.len }
    {
        self.len
    }

    fn put(&mut self, bytes: &[u8])
        ensures wrote { Wrote bytes.now self.old self.new }
    {
        let end = self.len.saturating_add(bytes.len());
        if end <= self.buffer.len() {
            self.buffer[self.len..end].copy_from_slice(bytes);
        }
        self.len = end;
    }

    pub fn number(&mut self, n: u64)
        ensures tells { Tells (natural n ∷ []) self.old self.new }
    {
        let mut digits = Buffer::new();
        self.put(digits.format(n).as_bytes());
    }

    pub fn signed(&mut self, z: i32)
        ensures tells { Tells (number_item z ∷ []) self.old self.new }
    {
        let mut digits = Buffer::new();
        self.put(digits.format(z).as_bytes());
    }

    // An ASCII word.
    pub fn word(&mut self, word: &str)
        ensures tells { Tells (word_item word.now ∷ []) self.old self.new }
    {
        self.put(word.as_bytes());
    }

    pub fn space(&mut self)
        ensures tells { Tells (space_item ∷ []) self.old self.new }
    {
        self.put(b" ");
    }

    // Ends a line.
    pub fn end(&mut self)
        ensures tells { Tells (end_item ∷ []) self.old self.new }
    {
        self.put(b"\n");
    }
}
