ghost use Rattle.std.specs.Prelude.{◌≡◌, ◌+◌, ◌-◌, ◌<◌, length, slice_index_or, slice_set};
ghost use Rattle.stores.specs.Places.{Place};
ghost use Rattle.stores.specs.declared.row.Row.{Row as Entry};
ghost use Rattle.chained_store.specs.Chains.{Chains, Below};

use crate::table::Table;
use keys::Key;
use stores::Row;

// A table of which each row in use is in the chain of its bucket.
#[derive(Drop)]
pub(crate) struct Linked<'a, K: Key + Copy, R: Copy> {
    pub(crate) table: Table<'a, K, R>,
    ghost chains: { Chains K.Key.digest table.rows.now table.links.now (Below table.used) },
}

impl<'a, K: Key + Copy, R: Copy> Linked<'a, K, R> {
    // The place of the key's row among those in use.
    pub(crate) fn place_of(&self, key: &K) -> Option<usize>
        ensures { Place self.now.table.rows.now self.now.table.used key.now result }
    {
        let rows = &*self.table.rows;
        let mut link = self.table.links[self.table.bucket(key)];
        while let Some(i) = link.checked_sub(1) {
            if rows[i].key.is_like(key) {
                return Some(i);
            }
            link = self.table.links[i];
        }
        None
    }

    // Puts a row behind those in use.
    pub(crate) fn push(&mut self, row: Row<K, R>)
        requires { self.old.table.used < length self.old.table.rows.now }
        ensures rows { self.new.table.rows.now ≡ slice_set self.old.table.rows.now self.old.table.used row }
        ensures used { self.new.table.used ≡ self.old.table.used + 1 }
    {
        let x = self.table.used;
        self.table.rows[x] = row;
        self.table.link(x);
        self.table.used += 1;
    }

    // Writes a row over another, whose key may be another.
    fn replace(&mut self, i: usize, row: Row<K, R>)
        requires { i < self.old.table.used }
        ensures rows { self.new.table.rows.now ≡ slice_set self.old.table.rows.now i row }
        ensures used { self.new.table.used ≡ self.old.table.used }
    {
        self.table.unlink(i);
        self.table.write(i, row);
        self.table.link(i);
    }

    // Takes a row out, and lets the last row have its place.
    pub(crate) fn swap_remove(&mut self, i: usize)
        requires { i < self.old.table.used }
        ensures rows { (d : Entry K R) → self.new.table.rows.now ≡ slice_set self.old.table.rows.now i (slice_index_or self.old.table.rows.now (self.old.table.used - 1) d) }
        ensures used { self.new.table.used ≡ self.old.table.used - 1 }
    {
        let last = self.table.used - 1;
        let row = self.table.rows[last];
        self.table.unlink(last);
        self.table.used = last;
        if i < last {
            self.replace(i, row);
        }
    }
}
