ghost use Rattle.std.specs.Prelude.{◌≡◌, length, take, position};
ghost use Rattle.stores.specs.Maps.{Empty};
ghost use Rattle.stores.specs.Places.{Place};
ghost use Rattle.stores.specs.Rows.{Dense, held, keys_of};
ghost use Rattle.stores.proofs.Numbered.{rows_number};

use keys::Key;
use stores::{Row, Store, StoreFull, read_key, read_record};

// The rows that the caller lends, and how many of them are in use, from the first on. No key stands in two of those.
#[derive(Drop)]
pub struct Flat<'a, K: Key + Copy, R: Copy> {
    rows: &'a mut [Row<K, R>],
    used: usize,
    ghost dense: { Dense rows.now used },
}

impl<'a, K: Key + Copy, R: Copy> Flat<'a, K, R> {
    // A store with no key, whose room is the number of the rows.
    pub fn over(rows: &'a mut [Row<K, R>]) -> Self
        ensures empty { Empty (held K.Key.alike result.rows.now result.used) }
        ensures room { length result.rows.now ≡ length rows.old }
    {
        Flat { rows, used: 0 }
    }

    // The place of the key's row among those in use.
    fn place_of(&self, key: &K) -> Option<usize>
        ensures { Place self.now.rows.now self.now.used key.now result }
    {
        position(&self.rows[..self.used], key)
    }
}

// The place of the first row that has the key.
fn position<K: Key, R>(rows: &[Row<K, R>], key: &K) -> Option<usize>
    ensures { result ≡ position (λ row. K.Key.alike row.key key.now) rows.now }
{
    rows.iter().position(|row| row.key.is_like(key))
}

impl<'a, K: Key + Copy, R: Copy> Store for Flat<'a, K, R> {
    type Key = K;

    type Record = R;

    ghost holds = { λ s. held K.Key.alike s.rows.now s.used };

    ghost most = { λ s. length s.rows.now };

    ghost keys = { λ s. keys_of (take s.used s.rows.now) };

    ghost fits = { λ s. s.dense.fits };

    ghost numbers = { λ s. rows_number K.Key.alike K.Key.equal s.rows.now s.used s.dense };

    fn room(&self) -> usize {
        self.rows.len()
    }

    fn find(&self, key: &K, place: &mut R) -> bool {
        // there is no row at the number of those in use
        let i = self.place_of(key).unwrap_or(self.used);
        read_record(&self.rows[..self.used], i, place)
    }

    fn put(&mut self, key: K, value: R) -> Result<(), StoreFull> {
        let room = self.rows.len();
        match self.place_of(&key) {
            Some(i) => self.rows[i] = Row { key, value },
            None if self.used < room => {
                self.rows[self.used] = Row { key, value };
                self.used += 1;
            }
            None => return Err(StoreFull),
        }
        Ok(())
    }

    fn remove(&mut self, key: &K) -> bool {
        let Some(i) = self.place_of(key) else {
            return false;
        };
        let last = self.used - 1;
        self.rows[i] = self.rows[last];
        self.used = last;
        true
    }

    fn walk(&self, number: usize, place: &mut K) -> bool {
        read_key(&self.rows[..self.used], number, place)
    }
}
