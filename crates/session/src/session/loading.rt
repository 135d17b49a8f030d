// Loading a text.
ghost use Rattle.std.specs.Prelude.{◌≡◌, ◌<◌};
ghost use Rattle.text.specs.Unread.{unread};
ghost use Rattle.histories.specs.Calls.{loads, loaded};
ghost use Rattle.histories.specs.Readings.{Proper};
ghost use Rattle.session.specs.Sessions.{state, places as places_in, Loads, Guarantees, KeepsPlaces};

use super::Session;
use answers::load::{LoadFault, LoadRefusal};
use limits::MOST_LITERALS;
use text::faults::BookFault;
use text::reader::Reader;

impl<'a> Session<'a> {
    // Takes the next clause of a text; false where it has ended well.
    fn load_next(&mut self, reader: &mut Reader<'_, '_>) -> Result<bool, LoadFault>
        requires open { 0 < self.old.n }
        requires proper { Proper self.old.n (unread reader.old) }
        ensures loads { Loads (places_in self.old) (state self.old) (unread reader.old)
            result (state self.new) (unread reader.new) }
        ensures lent { self.new.book.places.ghost_name ≡ self.old.book.places.ghost_name }
        ensures keeps { KeepsPlaces self.old self.new }
        ensures same { self.new.n ≡ self.old.n }
    {
        let Some(place) = reader.next_clause()? else {
            return Ok(false);
        };
        match self.accept(reader.clause()) {
            Ok(_) => Ok(true),
            Err(_) => Err(LoadFault::Book(BookFault::NoFreePlace { place })),
        }
    }

    // Takes the clauses of a text, and tells how many. Those before a fault
    // stay.
    #[tactic(auto, using(histories::proofs::Histories::continues))]
    pub fn load(&mut self, text: &[u8]) -> Result<u32, LoadRefusal>
        ensures guaranteed { Guarantees self.old (loads text.now) (loaded result) self.new }
        ensures lent { self.new.book.places.ghost_name ≡ self.old.book.places.ghost_name }
        ensures keeps { KeepsPlaces self.old self.new }
    {
        if self.n == 0 {
            return Err(LoadRefusal {
                fault: LoadFault::NotOpen,
                taken: 0,
            });
        }
        let mut places = [0; MOST_LITERALS];
        let mut reader = Reader::new(text, self.n, &mut places);
        let mut taken = 0;
        'clauses: loop {
            match self.load_next(&mut reader) {
                Ok(true) => taken += 1,
                Ok(false) => return Ok(taken),
                Err(fault) => return Err(LoadRefusal { fault, taken }),
            }
        }
    }
}
