ghost use Rattle.std.specs.Prelude.{◌≡◌, ◌<◌, length, slice_set};
ghost use Rattle.chained_store.specs.Buckets.{bucket_of};
ghost use Rattle.chained_store.specs.Chains.{Chains, Below};
ghost use Rattle.chained_store.specs.Entering.{Before, Leads, But, With};

use keys::Key;
use stores::Row;

// The rows and links that the caller lends, and how many rows are in use, from the first on. A row of these may be in no chain.
#[derive(Drop)]
pub(crate) struct Table<'a, K: Key + Copy, R: Copy> {
    pub(crate) rows: &'a mut [Row<K, R>],
    pub(crate) links: &'a mut [usize],
    pub(crate) used: usize,
}

impl<'a, K: Key + Copy, R: Copy> Table<'a, K, R> {
    // The place of the bucket that a key belongs to.
    pub(crate) fn bucket(&self, key: &K) -> usize
        requires { length self.now.rows.now < length self.now.links.now }
        ensures { result ≡ bucket_of (K.Key.digest key.now) (length self.now.rows.now) (length self.now.links.now) }
    {
        let room = self.rows.len();
        let buckets = self.links.len() - room;
        room + (key.hash() % buckets as u64) as usize
    }

    // The place whose link is to the row, or would be if the row were in its chain.
    fn before(&self, x: usize) -> usize
        requires row { x < length self.now.rows.now }
        requires wide { length self.now.rows.now < length self.now.links.now }
        requires leads { Leads K.Key.digest self.now.rows.now self.now.links.now self.now.used x }
        ensures { Before K.Key.digest self.now.rows.now self.now.links.now self.now.used x result }
    {
        let key = self.rows[x].key;
        let mut p = self.bucket(&key);
        while let Some(i) = self.links[p].checked_sub(1)
            && i > x
        {
            p = i;
        }
        p
    }

    // Takes the row out of its chain.
    pub(crate) fn unlink(&mut self, x: usize)
        requires row { x < self.old.used }
        requires chains { Chains K.Key.digest self.old.rows.now self.old.links.now (Below self.old.used) }
        ensures chains { Chains K.Key.digest self.new.rows.now self.new.links.now (But self.old.used x) }
        ensures rows { self.new.rows.now ≡ self.old.rows.now }
        ensures used { self.new.used ≡ self.old.used }
    {
        let p = self.before(x);
        self.links[p] = self.links[x];
    }

    // Puts the row into its chain, which it is not in.
    pub(crate) fn link(&mut self, x: usize)
        requires row { x < length self.old.rows.now }
        requires chains { Chains K.Key.digest self.old.rows.now self.old.links.now (But self.old.used x) }
        ensures chains { Chains K.Key.digest self.new.rows.now self.new.links.now (With self.old.used x) }
        ensures rows { self.new.rows.now ≡ self.old.rows.now }
        ensures used { self.new.used ≡ self.old.used }
    {
        let p = self.before(x);
        self.links[x] = self.links[p];
        self.links[p] = x + 1;
    }

    // Writes a row, and leaves the links. A write from `Linked` would owe there that the row is in its chain.
    pub(crate) fn write(&mut self, i: usize, row: Row<K, R>)
        requires { i < length self.old.rows.now }
        ensures rows { self.new.rows.now ≡ slice_set self.old.rows.now i row }
        ensures links { self.new.links.now ≡ self.old.links.now }
        ensures used { self.new.used ≡ self.old.used }
    {
        self.rows[i] = row;
    }
}
