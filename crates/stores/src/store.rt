ghost use Rattle.std.specs.Prelude.{◌≡◌, ℕ, ◌≤◌, List, is_ok};
ghost use Rattle.stores.specs.Maps.{Map};
ghost use Rattle.stores.specs.Functions.{Found, Put, Removed};
ghost use Rattle.stores.specs.Numbering.{Numbers};
ghost use Rattle.stores.specs.Reading.{ReadAt};

use keys::Key;

// Why a record is not put: the key is absent and the room is full.
#[derive(Clone, Copy, PartialEq, Eq, Debug)]
pub struct StoreFull;

// A store: a map from keys to records, with a fixed room. A constructor gives a store that has no key.
pub trait Store {
    type Key: Key + Copy;

    type Record: Copy;

    // What the store holds.
    ghost holds: { Self → Map Self.Key Self.Record };

    // The most keys that it holds.
    ghost most: { Self → ℕ };

    // Its keys by their numbers, in whatever order.
    ghost keys: { Self → List Self.Key };

    fn room(&self) -> usize
        ensures { result ≡ most self.now };

    // Fills the place with the key's record, and answers whether there was one.
    fn find(&self, key: &Self::Key, place: &mut Self::Record) -> bool
        ensures { Found (holds self.now) key.now place.old place.new result };

    // Sets the key's record; refused exactly where the key is absent and the room full.
    fn put(&mut self, key: Self::Key, value: Self::Record) -> Result<(), StoreFull>
        ensures put { Put Self.Key.Key.alike (most self.old) (holds self.old) key value (is_ok result) (holds self.new) }
        ensures room { most self.new ≡ most self.old };

    // Takes the key out, and answers whether it was there.
    fn remove(&mut self, key: &Self::Key) -> bool
        ensures removed { Removed Self.Key.Key.alike (holds self.old) key.now result (holds self.new) }
        ensures room { most self.new ≡ most self.old };

    // Fills the place with the key at a number, and answers whether there was one.
    fn walk(&self, number: usize, place: &mut Self::Key) -> bool
        ensures { ReadAt (keys self.now) number place.old place.new result };

    // It never holds more keys than it has room for, and each of its keys has exactly one number.
    ghost fits: { (s : Self) → (holds s).count ≤ most s };

    ghost numbers: { (s : Self) → Numbers (holds s) (keys s) };
}
