ghost use Rattle.std.specs.Prelude.{◌≡◌, ◌≤◌, length, take, MatchOption};
ghost use Rattle.stores.specs.Rows.{Dense, held, keys_of};
ghost use Rattle.stores.proofs.Numbered.{rows_number};
ghost use Rattle.chained_store.specs.Chains.{New};

use crate::linked::Linked;
use crate::table::Table;
use keys::Key;
use stores::{Row, Store, StoreFull, read_key, read_record};

// Rows in chains, of which no two have one key.
#[derive(Drop)]
pub struct Chained<'a, K: Key + Copy, R: Copy> {
    linked: Linked<'a, K, R>,
    ghost dense: { Dense linked.table.rows.now linked.table.used },
}

impl<'a, K: Key + Copy, R: Copy> Chained<'a, K, R> {
    // A store with no key, whose room is the number of the rows; each link past theirs is a bucket's. None where there is no bucket.
    pub fn over(rows: &'a mut [Row<K, R>], links: &'a mut [usize]) -> Option<Self>
        ensures { MatchOption result (length links.old ≤ length rows.old) (λ s. New K.Key.alike (length rows.old) s.linked.table.rows.now s.linked.table.used) }
    {
        if links.len() <= rows.len() {
            return None;
        }
        links.fill(0);
        let table = Table {
            rows,
            links,
            used: 0,
        };
        Some(Chained {
            linked: Linked { table },
        })
    }
}

impl<'a, K: Key + Copy, R: Copy> Store for Chained<'a, K, R> {
    type Key = K;

    type Record = R;

    ghost holds = { λ s. held K.Key.alike s.linked.table.rows.now s.linked.table.used };

    ghost most = { λ s. length s.linked.table.rows.now };

    ghost keys = { λ s. keys_of (take s.linked.table.used s.linked.table.rows.now) };

    ghost fits = { λ s. s.dense.fits };

    ghost numbers = { λ s. rows_number K.Key.alike K.Key.equal s.linked.table.rows.now s.linked.table.used s.dense };

    fn room(&self) -> usize {
        self.linked.table.rows.len()
    }

    fn find(&self, key: &K, place: &mut R) -> bool {
        let used = self.linked.table.used;
        // there is no row at the number of those in use
        let i = self.linked.place_of(key).unwrap_or(used);
        read_record(&self.linked.table.rows[..used], i, place)
    }

    fn put(&mut self, key: K, value: R) -> Result<(), StoreFull> {
        match self.linked.place_of(&key) {
            Some(i) => self.linked.table.rows[i] = Row { key, value },
            None if self.linked.table.used < self.linked.table.rows.len() => {
                self.linked.push(Row { key, value });
            }
            None => return Err(StoreFull),
        }
        Ok(())
    }

    fn remove(&mut self, key: &K) -> bool {
        let Some(i) = self.linked.place_of(key) else {
            return false;
        };
        self.linked.swap_remove(i);
        true
    }

    fn walk(&self, number: usize, place: &mut K) -> bool {
        let rows = &self.linked.table.rows[..self.linked.table.used];
        read_key(rows, number, place)
    }
}
