ghost use Rattle.std.specs.Prelude.{◌≡◌, true, is_some, IfSome};
ghost use Rattle.stores.specs.Maps.{Empty};
ghost use Rattle.stores.specs.Functions.{Put, Removed};
ghost use Rattle.store_clients.specs.Clearing.{Cleared};

use keys::Key;
use store_clients::{count, key_at, remove_bearer};
use stores::Store;

// Two stores of the same keys, which get the same calls: both have the same record at each key, as many keys and as much room.
#[derive(Drop)]
pub struct Pair<
    K: Key + Copy,
    A: Store<Key = K, Record = u32> + Drop,
    B: Store<Key = K, Record = u32> + Drop,
> {
    one: A,
    other: B,
    ghost records: { (q : K) → (A.Store.holds one).at q ≡ (B.Store.holds other).at q },
    ghost counts: { (A.Store.holds one).count ≡ (B.Store.holds other).count },
    ghost rooms: { A.Store.most one ≡ B.Store.most other },
}

impl<
    K: Key + Copy,
    A: Store<Key = K, Record = u32> + Drop,
    B: Store<Key = K, Record = u32> + Drop,
> Pair<K, A, B> {
    // The pair of two stores that have no key and the same room; none of others. The scratch is any key.
    pub fn matched(one: A, other: B, scratch: K) -> Option<Self>
        ensures alike { Empty (A.Store.holds one) → Empty (B.Store.holds other) → A.Store.most one ≡ B.Store.most other → is_some result ≡ true }
        ensures made { IfSome result (λ p. (p.one ≡ one) × (p.other ≡ other) × Empty (A.Store.holds p.one)) }
    {
        let alike = one.room() == other.room()
            && key_at(&one, 0, scratch).is_none()
            && key_at(&other, 0, scratch).is_none();
        if alike {
            Some(Pair { one, other })
        } else {
            None
        }
    }

    // Puts into both, and answers whether each took it.
    pub fn put(&mut self, key: K, value: u32) -> (bool, bool)
        ensures put { Put K.Key.alike (A.Store.most self.old.one) (A.Store.holds self.old.one) key value result.0 (A.Store.holds self.new.one) }
        ensures agree { result.0 ≡ result.1 }
    {
        let one = self.one.put(key, value);
        let other = self.other.put(key, value);
        (one.is_ok(), other.is_ok())
    }

    // Removes from both, and answers what each answered.
    pub fn remove(&mut self, key: &K) -> (bool, bool)
        ensures removed { Removed K.Key.alike (A.Store.holds self.old.one) key.now result.0 (A.Store.holds self.new.one) }
        ensures agree { result.0 ≡ result.1 }
    {
        (self.one.remove(key), self.other.remove(key))
    }

    // Finds in both, and answers what each has at the key.
    pub fn find(&self, key: &K) -> (Option<u32>, Option<u32>)
        ensures found { result.0 ≡ (A.Store.holds self.now.one).at key.now }
        ensures agree { result.0 ≡ result.1 }
    {
        (find_in(&self.one, key), find_in(&self.other, key))
    }

    // How many keys each has, by a walk. The scratch is any key.
    pub fn count(&self, scratch: K) -> (usize, usize)
        ensures counted { result.0 ≡ (A.Store.holds self.now.one).count }
        ensures agree { result.0 ≡ result.1 }
    {
        (count(&self.one, scratch), count(&self.other, scratch))
    }

    // Removes every key of a bearer from both. The scratch is any key.
    pub fn remove_bearer(&mut self, bearer: u8, scratch: K)
        ensures { Cleared K.Key.owner bearer (A.Store.holds self.old.one) (A.Store.holds self.new.one) }
    {
        remove_bearer(&mut self.one, bearer, scratch);
        remove_bearer(&mut self.other, bearer, scratch);
    }

    // Whether the key at a number of one store has the same record in the other.
    pub fn walk(&self, number: usize, scratch: K) -> bool
        ensures { result ≡ true }
    {
        match key_at(&self.one, number, scratch) {
            Some(key) => {
                let (here, there) = self.find(&key);
                here == there
            }
            None => true,
        }
    }
}

// The record at a key, or none.
fn find_in<S: Store<Record = u32>>(store: &S, key: &S::Key) -> Option<u32>
    ensures { result ≡ (S.Store.holds store.now).at key.now }
{
    let mut place = 0;
    store.find(key, &mut place).then_some(place)
}
