//! All rows of one owner, for changes in place.
ghost use Rattle.std.specs.Prelude.{◌≡◌, ◌↔◌, OnOk, OnErr, IfOk, IsTrue, true};
ghost use Rattle.toll_base.specs.Slice.{empty_slice, with_row};
ghost use Rattle.toll_base.specs.SliceRules.{KeepsRules};

use crate::name::Name;
use crate::row_tables::RowTables;
use crate::rows::Row;
use std::alloc::{AllocError, Global};
use std::marker::Model;

/// All rows of one owner, each kind in the order of its keys. No copy shares them, so they can be
/// changed in place.
pub struct UniqueSlice {
    pub(crate) tables: RowTables,
}

impl Model for UniqueSlice {
    ghost use Rattle.toll_base.specs.Slice as rows;

    ghost Value = { rows.Slice };

    ghost use Rattle.toll_base.specs.SliceRules.{KeepsRules};

    ghost view = { λ s. s.tables };

    ghost invariant = { λ s. KeepsRules s.tables };
}

/// Written by hand: a derived `Drop` is expanded at every exit of every function that owns rows.
impl Drop for UniqueSlice {
    fn drop(self) {
        let UniqueSlice { tables: _ } = self;
    }
}

impl UniqueSlice {
    /// No rows of this owner. It takes no memory yet.
    pub fn new(alloc: Global, owner: Name) -> Self
        ensures { result ≡ empty_slice owner }
    {
        UniqueSlice {
            tables: RowTables::new(alloc, owner),
        }
    }

    /// The owner whose rows these are.
    pub fn owner(&self) -> &Name
        ensures owner { result.now ≡ self.now.owner }
        ensures kept { KeepsRules self.now }
    {
        &self.tables.owner
    }

    /// Adds the row, or replaces the one with its key. If memory runs out, nothing changes.
    pub fn put(&mut self, row: Row) -> Result<(), AllocError>
        requires { KeepsRules (with_row self.old row) }
        ensures ok { OnOk result (self.new ≡ with_row self.old row) }
        ensures err { OnErr result (self.new ≡ self.old) }
    {
        self.tables.put(row)
    }

    /// Whether the rules of a slice hold after this row is put.
    pub fn fits(&self, row: &Row) -> bool
        ensures { IsTrue result ↔ KeepsRules (with_row self.now row.now) }
    {
        self.tables.fits(row)
    }

    /// A copy of the rows. It fails only if memory runs out.
    pub fn copy(&self, alloc: Global) -> Result<Self, AllocError>
        ensures { IfOk result (λ copied. copied ≡ self.now) }
    {
        Ok(UniqueSlice {
            tables: self.tables.copy(alloc)?,
        })
    }
}
