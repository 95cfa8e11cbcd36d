//! Rows in the order of their keys.
ghost use Rattle.std.specs.Prelude.{◌≡◌, List, [], length, is_some, true, OnOk, OnErr, IfOk, MatchResult};
ghost use Rattle.std.specs.List.Sorted.{IsSearchInRange};
ghost use Rattle.toll_base.specs.Places.{HasKeyAt, IsPlaceFor};
ghost use Rattle.toll_base.specs.Table.{row_at, put_row, IsInKeyOrder, has_room};

use crate::double_ended::DoubleEnded;
use std::alloc::{AllocError, Global};
use std::marker::Model;

/// A row of a table, known by its key.
pub trait Keyed: Copy {
    type Key: Ord + Copy;

    ghost key_of: { Self → Self.Key };

    /// Its key: a table has one row of each key, in the order of the keys.
    fn key(&self) -> Self::Key
        ensures { result ≡ key_of self.now };
}

/// The rows of one kind, each key once, in the order of the keys. A look-up is a binary search.
pub struct Table<R: Keyed> {
    rows: DoubleEnded<R>,
}

/// Written by hand: a derived `Drop` is expanded at every exit of every function that owns rows.
impl<R: Keyed> Drop for Table<R> {
    fn drop(self) {
        let Table { rows: _ } = self;
    }
}

impl<R: Keyed> Model for Table<R> {
    ghost Value = { List R };

    ghost view = { λ t. t.rows };

    ghost invariant = { λ t. IsInKeyOrder R.Key.cmp R.key_of t.rows };
}

impl<R: Keyed> Table<R> {
    /// No rows. It takes no memory yet.
    pub fn new(alloc: Global) -> Self
        ensures { result ≡ [] }
    {
        Table {
            rows: DoubleEnded::new(alloc),
        }
    }

    /// The rows in order.
    pub fn rows(&self) -> &[R]
        ensures rows { result.now ≡ self.now }
        ensures order { IsInKeyOrder R.Key.cmp R.key_of self.now }
    {
        self.rows.as_slice()
    }

    /// The row with this key.
    pub fn get(&self, key: &R::Key) -> Option<R>
        ensures { result ≡ row_at R.Key.cmp R.key_of self.now key.now }
    {
        match self.search(key) {
            Ok(at) => Some(self.rows()[at]),
            Err(_) => None,
        }
    }

    /// Whether a row has this row's key, or there are fewer rows than `most`.
    pub fn has_room(&self, row: &R, most: usize) -> bool
        ensures { result ≡ has_room R.Key.cmp R.key_of most self.now row.now }
    {
        self.get(&row.key()).is_some() || self.rows().len() < most
    }

    /// Adds the row, or replaces the one with its key. If memory runs out, nothing changes.
    pub fn put(&mut self, row: R) -> Result<(), AllocError>
        ensures ok { OnOk result (self.new ≡ put_row R.Key.cmp R.key_of self.old row) }
        ensures err { OnErr result (self.new ≡ self.old) }
    {
        match self.search(&row.key()) {
            Ok(at) => self.rows.set(at, row),
            Err(at) => self.rows.insert(at, row)?,
        }
        Ok(())
    }

    /// Replaces the row with its key. This takes no memory.
    pub fn replace(&mut self, row: R)
        requires { is_some (row_at R.Key.cmp R.key_of self.old (R.key_of row)) ≡ true }
        ensures { self.new ≡ put_row R.Key.cmp R.key_of self.old row }
    {
        if let Ok(at) = self.search(&row.key()) {
            self.rows.set(at, row);
        }
    }

    /// A copy of the rows. It fails only if memory runs out.
    pub fn copy(&self, alloc: Global) -> Result<Self, AllocError>
        ensures { IfOk result (λ copied. copied ≡ self.now) }
    {
        Ok(Table {
            rows: DoubleEnded::from_slice(alloc, self.rows())?,
        })
    }

    // The place of the key, or the place to insert it.
    fn search(&self, key: &R::Key) -> Result<usize, usize>
        ensures bound { IsSearchInRange result (length self.now) }
        ensures place { MatchResult result (HasKeyAt R.Key.cmp R.key_of self.now key.now) (IsPlaceFor R.Key.cmp R.key_of self.now key.now) }
    {
        self.rows().binary_search_by_key(key, |row| row.key())
    }
}
