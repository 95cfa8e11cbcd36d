//! Movements in the order of their keys.
ghost use Rattle.std.specs.Prelude.{◌≡◌, ◌<◌, ◌≤◌, length, slice_index_or, List, [], OnOk, OnErr, IfOk, MatchResult};
ghost use Rattle.std.specs.List.Sorted.{IsSearchInRange};
ghost use Rattle.std.specs.Map.Iter.{ShowsInOrder, deref};
ghost use Rattle.toll_base.specs.Bytes.{bytes_cmp};
ghost use Rattle.toll_base.specs.MoveRows.{ArePlacesOf, HasPlacedKey, IsPlaceAmong, key_cmp_at};
ghost use Rattle.toll_base.specs.Table.{row_at, put_row, has_room, IsInKeyOrder};
ghost use Rattle.toll_base.specs.declared.movement.MoveRow.{MoveRow as Moved};

use crate::capacity::MOST_MOVEMENTS;
use crate::double_ended::DoubleEnded;
use crate::move_rows_iter::MoveRowsIter;
use crate::movement::MoveRow;
use crate::name::Name;
use std::alloc::{AllocError, Global};
use std::cmp::Ordering;
use std::marker::Model;

/// The movements of one owner, each key once, in the order of the keys. A row stays at its place, and a list
/// of the places is kept in order. So a new row moves places of 4 bytes each, and no row. A look-up is a
/// binary search.
pub struct MoveRows {
    rows: Vec<MoveRow>,
    places: DoubleEnded<u32>,
}

/// Written by hand: a derived `Drop` is expanded at every exit of every function that owns rows.
impl Drop for MoveRows {
    fn drop(self) {
        let MoveRows { rows: _, places: _ } = self;
    }
}

impl Model for MoveRows {
    ghost use Rattle.std.specs.Prelude.{List};
    ghost use Rattle.toll_base.specs.MoveRows.{ArePlacesOf, rows_at};
    ghost use Rattle.toll_base.specs.declared.movement.MoveRow.{MoveRow};

    ghost Value = { List MoveRow };

    ghost view = { λ m. rows_at m.rows.items m.places };

    ghost invariant = { λ m. ArePlacesOf m.rows.items m.places };
}

impl MoveRows {
    /// No movements. It takes no memory yet.
    pub(crate) fn new(alloc: Global) -> Self
        ensures { result ≡ [] }
    {
        MoveRows {
            rows: Vec::new(alloc),
            places: DoubleEnded::new(alloc),
        }
    }

    /// How many there are.
    pub fn len(&self) -> usize
        ensures len { result ≡ length self.now }
        ensures order { IsInKeyOrder bytes_cmp (λ row. row.key) self.now }
    {
        self.places.as_slice().len()
    }

    /// The movements, in the order of their keys.
    pub fn iter(&self) -> MoveRowsIter<'_>
        ensures rest { result ≡ self.now }
        ensures runs { ShowsInOrder (deref {X = Moved}) }
    {
        MoveRowsIter::new(&self.rows, self.places.as_slice())
    }

    /// The movement with this key.
    pub(crate) fn get(&self, key: &Name) -> Option<MoveRow>
        ensures { result ≡ row_at bytes_cmp (λ row. row.key) self.now key.now }
    {
        let places = self.places.as_slice();
        match search(&self.rows, places, key) {
            Ok(at) => Some(self.rows[places[at] as usize]),
            Err(_) => None,
        }
    }

    /// Whether a movement has this movement's key, or there are fewer movements than `most`.
    pub(crate) fn has_room(&self, row: &MoveRow, most: usize) -> bool
        ensures { result ≡ has_room bytes_cmp (λ row. row.key) most self.now row.now }
    {
        self.len() < most || self.get(&row.key).is_some()
    }

    /// Adds the movement, or replaces the one with its key and returns that one.
    pub(crate) fn put(&mut self, row: MoveRow) -> Result<Option<MoveRow>, AllocError>
        requires { length self.old ≤ MOST_MOVEMENTS }
        ensures ok { OnOk result (self.new ≡ put_row bytes_cmp (λ row. row.key) self.old row) }
        ensures known { IfOk result (λ known. known ≡ row_at bytes_cmp (λ row. row.key) self.old row.key) }
        ensures err { OnErr result (self.new ≡ self.old) }
    {
        match search(&self.rows, self.places.as_slice(), &row.key) {
            Ok(at) => {
                let place = self.places.as_slice()[at] as usize;
                let known = self.rows[place];
                self.rows[place] = row;
                Ok(Some(known))
            }
            Err(at) => {
                let place = self.rows.len() as u32;
                self.rows.push(row)?;
                match self.places.insert(at, place) {
                    Ok(()) => Ok(None),
                    Err(refused) => {
                        self.rows.pop();
                        Err(refused)
                    }
                }
            }
        }
    }

    /// A copy of the movements.
    pub(crate) fn copy(&self, alloc: Global) -> Result<Self, AllocError>
        ensures { IfOk result (λ copied. copied ≡ self.now) }
    {
        Ok(MoveRows {
            rows: Vec::from_slice(alloc, &self.rows)?,
            places: DoubleEnded::from_slice(alloc, self.places.as_slice())?,
        })
    }
}

// The place of the key among the rows at these places, or the place to insert it.
fn search(rows: &[MoveRow], places: &[u32], key: &Name) -> Result<usize, usize>
    requires { ArePlacesOf rows.now places.now }
    ensures bound { IsSearchInRange result (length places.now) }
    ensures place { MatchResult result (HasPlacedKey rows.now places.now key.now) (IsPlaceAmong rows.now places.now key.now) }
{
    if let Some(last) = places.last() {
        if compare_at(rows, key, *last).is_lt() {
            return Err(places.len());
        }
    }
    places.binary_search_by(|place| compare_at(rows, key, *place))
}

// How the key of the row at a place compares with this one.
fn compare_at(rows: &[MoveRow], key: &Name, place: u32) -> Ordering
    ensures { result ≡ key_cmp_at rows.now key.now place }
{
    match rows.get(place as usize) {
        Some(row) => row.key.cmp(key),
        None => Ordering::Less,
    }
}
