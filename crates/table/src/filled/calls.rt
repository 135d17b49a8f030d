// What can be done with a stretch of filled places.
ghost use Rattle.std.specs.Prelude.{◌≡◌, [], length};
ghost use Rattle.table.specs.Held.{held, beyond, places_of, free, Pushed, StandsAt};

use super::{Filled, Full};

// `lent` ties the reference after a call to the one before, so that the lender
// learns what its places hold; no invariant of a value says that.
impl<'a, T: Copy> Filled<'a, T> {
    // No entry yet; every place keeps what the caller had there.
    pub fn new(places: &'a mut [T]) -> Filled<'a, T>
        ensures items { held result ≡ [] }
        ensures rest { beyond result ≡ places.old }
        ensures places { places_of result ≡ places.old }
        ensures lent { result.places.ghost_name ≡ places.entry.ghost_name }
    {
        Filled { places, len: 0 }
    }

    // The entries, oldest first.
    pub fn as_slice(&self) -> &[T]
        ensures value { result.now ≡ held self.now }
    {
        &self.places[..self.len]
    }

    // How many entries there are.
    pub fn len(&self) -> usize
        ensures value { result ≡ length (held self.now) }
    {
        self.as_slice().len()
    }

    // How many more entries fit.
    pub fn room(&self) -> usize
        ensures value { result ≡ free self.now }
    {
        self.places.len() - self.len
    }

    // The entry at index `i`, if there is one.
    pub fn get(&self, i: usize) -> Option<T>
        ensures finds { StandsAt (held self.now) i result }
    {
        self.as_slice().get(i).copied()
    }

    // Puts `x` after the last entry and tells its index; refused where no
    // place is free.
    pub fn push(&mut self, x: T) -> Result<usize, Full>
        ensures lent { self.new.places.ghost_name ≡ self.old.places.ghost_name }
        ensures after { Pushed self.old x self.new result }
    {
        if self.len >= self.places.len() {
            return Err(Full);
        }
        let i = self.len;
        self.places[i] = x;
        self.len = i + 1;
        Ok(i)
    }

    // Lets every entry go; each place keeps what it held.
    pub fn clear(&mut self)
        ensures lent { self.new.places.ghost_name ≡ self.old.places.ghost_name }
        ensures items { held self.new ≡ [] }
        ensures places { places_of self.new ≡ places_of self.old }
    {
        self.len = 0;
    }
}
