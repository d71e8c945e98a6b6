ghost use Rattle.std.specs.Prelude.{◌≡◌, slice_get};

use keys::Key;
use stores::Store;

// The key at a number. The scratch is any key: the walk wants a place to fill.
pub fn key_at<S: Store>(store: &S, number: usize, scratch: S::Key) -> Option<S::Key>
    ensures { result ≡ slice_get (S.Store.keys store.now) number }
{
    let mut place = scratch;
    store.walk(number, &mut place).then_some(place)
}

// How many keys the store has. The scratch is any key.
pub fn count<S: Store>(store: &S, scratch: S::Key) -> usize
    ensures { result ≡ (S.Store.holds store.now).count }
{
    let room = store.room();
    for n in 0..room {
        if key_at(store, n, scratch).is_none() {
            return n;
        }
    }
    room
}
