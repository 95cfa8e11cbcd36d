//! Movements in the order of their keys, one after another.
ghost use Rattle.std.specs.Prelude.{◌≡◌, length};
ghost use Rattle.std.specs.Iterator.{at_most};
ghost use Rattle.std.specs.Map.Iter.{TakesFirst, deref};
ghost use Rattle.toll_base.specs.MoveRows.{HaveRows, rows_at};

use crate::movement::MoveRow;
use std::marker::Model;

/// The movements that are left, in the order of their keys.
#[derive(Drop)]
pub struct MoveRowsIter<'a> {
    rows: &'a [MoveRow],
    places: &'a [u32],
}

impl<'a> Model for MoveRowsIter<'a> {
    ghost use Rattle.std.specs.Prelude.{List};
    ghost use Rattle.toll_base.specs.MoveRows.{HaveRows, rows_at};
    ghost use Rattle.toll_base.specs.declared.movement.MoveRow.{MoveRow};

    ghost Value = { List MoveRow };

    ghost view = { λ i. rows_at i.rows.now i.places.now };

    ghost invariant = { λ i. HaveRows i.rows.now i.places.now };
}

impl<'a> MoveRowsIter<'a> {
    // The rows at these places, in the places' order.
    pub(crate) fn new(rows: &'a [MoveRow], places: &'a [u32]) -> Self
        requires { HaveRows rows.now places.now }
        ensures { result ≡ rows_at rows.now places.now }
    {
        MoveRowsIter { rows, places }
    }
}

impl<'a> Iterator for MoveRowsIter<'a> {
    type Item = &'a MoveRow;

    ghost next_gives = { TakesFirst deref };

    ghost remaining = { λ s. at_most (length s) };

    fn next(&mut self) -> Option<&'a MoveRow> {
        let (first, rest) = self.places.split_first()?;
        self.places = rest;
        Some(&self.rows[*first as usize])
    }
}
