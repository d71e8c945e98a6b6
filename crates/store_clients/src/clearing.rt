ghost use Rattle.std.specs.Prelude.{◌≡◌};
ghost use Rattle.store_clients.specs.Clearing.{Cleared, Swept};

use crate::counting::{count, key_at};
use keys::Key;
use stores::Store;

// Removes every key of a bearer. The scratch is any key: the walk wants a place to fill.
// A removal may number the other keys anew, so the store is swept until a sweep finds no such key.
pub fn remove_bearer<S: Store>(store: &mut S, bearer: u8, scratch: S::Key)
    ensures cleared { Cleared S.Key.Key.owner bearer (S.Store.holds store.old) (S.Store.holds store.new) }
    ensures room { S.Store.most store.new ≡ S.Store.most store.old }
{
    while sweep(store, bearer, scratch) {}
}

// Goes over the numbers from the last down and removes each key of the bearer that it meets; answers whether it met one.
// Where a removal moves only keys of higher numbers, as in both stores of ours, one sweep takes them all.
fn sweep<S: Store>(store: &mut S, bearer: u8, scratch: S::Key) -> bool
    ensures swept { Swept S.Key.Key.owner bearer (S.Store.holds store.old) result (S.Store.holds store.new) }
    ensures room { S.Store.most store.new ≡ S.Store.most store.old }
{
    let mut met = false;
    for n in (0..count(store, scratch)).rev() {
        if let Some(key) = key_at(store, n, scratch) {
            if key.bearer() == bearer {
                store.remove(&key);
                met = true;
            }
        }
    }
    met
}
