//! The remembered rows of a keep.
ghost use Rattle.std.specs.Prelude.{◌≡◌, List, OnOk};
ghost use Rattle.toll_keep.specs.Common.{Bytes, list_any};
ghost use Rattle.toll_keep.specs.Content.{Content, content_after};
ghost use Rattle.toll_keep.specs.HeldFor.{PutsOutside};
ghost use Rattle.toll_keep.specs.Remembered.{IsNothing, IsCacheFor, IsCacheOf, is_addition};

use crate::drawing::forget_drawn;
use crate::known_graph::KnownGraph;
use crate::remembered::follow_all;
use std::alloc::{AllocError, Global};
use toll_base::{Change, OwnerRow, Row, Slice, UnitRow};

/// Rows that were read of a keep: slices, the owners and the units after a request for them, and the graphs
/// of owners after a trace over their batches.
pub struct Cache {
    pub slices: Vec<Slice>,
    pub owners: Option<Vec<OwnerRow>>,
    pub units: Option<Vec<UnitRow>>,
    pub graphs: Vec<KnownGraph>,
}

/// Written by hand: a derived `Drop` is expanded at every exit of every function that owns one.
impl Drop for Cache {
    fn drop(self) {
        let Cache {
            slices: _,
            owners: _,
            units: _,
            graphs: _,
        } = self;
    }
}

impl Cache {
    /// Nothing yet. It takes no memory.
    pub fn nothing(alloc: Global) -> Self
        ensures { IsNothing result }
    {
        Cache {
            slices: Vec::new(alloc),
            owners: None,
            units: None,
            graphs: Vec::new(alloc),
        }
    }

    /// Makes the changes in the slices, each in place if no other copy shares its rows. It forgets the
    /// owners and the units if one is added. It forgets an owner's graph if a change may add or remove an
    /// edge of the owner. If memory runs out, or a row doesn't fit, the rest can't be used any more.
    pub fn follow(&mut self, alloc: Global, changes: &[Change]) -> Result<(), AllocError>
        ensures all { OnOk result ((c : Content) → IsCacheOf c self.old → IsCacheOf (content_after changes.now c) self.new) }
        ensures alone { OnOk result ((os : List Bytes) (c : Content) → IsCacheFor os c self.old → IsCacheFor os (content_after changes.now c) self.new) }
        ensures others { OnOk result ((os : List Bytes) (c : Content) → PutsOutside os changes.now → IsCacheFor os c self.old → IsCacheFor os c self.new) }
    {
        forget_drawn(&mut self.graphs, &self.slices, changes);
        follow_all(alloc, &mut self.slices, changes)?;
        if has_addition(changes) {
            self.owners = None;
            self.units = None;
        }
        Ok(())
    }
}

/// Whether a change adds an owner or a unit.
pub fn has_addition(changes: &[Change]) -> bool
    ensures { result ≡ list_any is_addition changes.now }
{
    changes.iter().any(is_addition)
}

fn is_addition(change: &Change) -> bool
    ensures { result ≡ is_addition change.now }
{
    // This names the type for the proof: a change may have a row.
    let _row: Option<Row> = None;
    matches!(change, Change::Owner(_) | Change::Unit(_))
}
