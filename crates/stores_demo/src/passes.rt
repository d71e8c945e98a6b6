// Calls at many keys, given to both stores of a pair.
ghost use Rattle.std.specs.Prelude.{◌≡◌, true};

use crate::pair::Pair;
use crate::tally::Tally;
use keys::Key;
use stores::Store;

impl<
    K: Key + Copy,
    A: Store<Key = K, Record = u32> + Drop,
    B: Store<Key = K, Record = u32> + Drop,
> Pair<K, A, B> {
    // Puts a record at each key.
    pub fn put_all(&mut self, keys: &[K], value: u32) -> Tally
        ensures agree { result.agree ≡ true }
    {
        Tally::of(keys, |key| {
            let (one, other) = self.put(*key, value);
            (one, one == other)
        })
    }

    // Removes each key.
    pub fn remove_all(&mut self, keys: &[K]) -> Tally
        ensures agree { result.agree ≡ true }
    {
        Tally::of(keys, |key| {
            let (one, other) = self.remove(key);
            (one, one == other)
        })
    }

    // Finds each key.
    pub fn find_all(&self, keys: &[K]) -> Tally
        ensures agree { result.agree ≡ true }
    {
        Tally::of(keys, |key| {
            let (one, other) = self.find(key);
            (one.is_some(), one == other)
        })
    }

    // Walks over all keys. The scratch is any key.
    pub fn walk_all(&self, scratch: K) -> Tally
        ensures agree { result.agree ≡ true }
    {
        let (one, other) = self.count(scratch);
        let mut tally = Tally {
            yes: 0,
            agree: one == other,
        };
        for number in 0..one {
            tally = tally.with(true, self.walk(number, scratch));
        }
        tally
    }
}
