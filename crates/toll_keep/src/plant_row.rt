//! The plant's own rows.
ghost use Rattle.std.specs.Prelude.{◌≡◌, IfOk, List};
ghost use Rattle.toll_keep.specs.CallEffects.{IsReading};
ghost use Rattle.toll_keep.specs.Common.{Bytes};
ghost use Rattle.toll_keep.specs.Meaning.{OverContent, meaning_for};

use crate::keep::Keep;
use crate::keep_fault::KeepFault;
use std::alloc::Global;
use toll_base::{OwnerRow, UnitRow};

/// A row that belongs to no owner: a row of the owners or of the units.
pub trait PlantRow: Copy {
    ghost use Rattle.std.specs.Prelude.{List};
    ghost use Rattle.toll_keep.specs.Content.{Content};

    // The rows of this kind that a content has.
    ghost rows_of: { Content → List Self };

    /// The rows of this kind, as the keep gives them.
    fn read<K: Keep>(alloc: Global, keep: &mut K) -> Result<Vec<Self>, KeepFault>
        ensures reading { IsReading K.meaning keep.old keep.new result }
        ensures reads { OverContent K.meaning keep.old keep.new (λ c. IfOk result (λ rows. rows.items ≡ rows_of c)) }
        ensures alone { (os : List Bytes) → IsReading (meaning_for K.meaning K.part os) keep.old keep.new result }
        ensures found { (os : List Bytes) → OverContent (meaning_for K.meaning K.part os) keep.old keep.new
            (λ c. IfOk result (λ rows. rows.items ≡ rows_of c)) };
}

impl PlantRow for OwnerRow {
    ghost rows_of = { λ c. c.owners };

    fn read<K: Keep>(alloc: Global, keep: &mut K) -> Result<Vec<Self>, KeepFault> {
        keep.owners(alloc)
    }
}

impl PlantRow for UnitRow {
    ghost rows_of = { λ c. c.units };

    fn read<K: Keep>(alloc: Global, keep: &mut K) -> Result<Vec<Self>, KeepFault> {
        keep.units(alloc)
    }
}
