//! Uses of lots by the batches of several owners.
ghost use Rattle.std.specs.Prelude.{◌≡◌, ◌++◌, map, OnOk};
ghost use Rattle.toll_trace.specs.Places.{AreSliceNumbersInRange, placed_use};

use crate::edges::{Batch, LotUse, uses};
use crate::places::Place;
use std::alloc::{AllocError, Global};
use toll_base::{LotId, Role, Slice};

/// The lots that standing actuals of several slices consumed and produced. A graph is made of them.
/// Slices may be added one by one, and aren't kept.
#[derive(Drop)]
pub struct Recorded {
    pub(crate) consumptions: Vec<(Place, LotId)>,
    pub(crate) productions: Vec<(Place, LotId)>,
    ghost numbered: { AreSliceNumbersInRange consumptions.items productions.items },
}

impl Recorded {
    ghost use Rattle.std.specs.Prelude.{◌⊎◌, ◌↔◌, IfOk};
    ghost use Rattle.toll_base.specs.declared.lot.Edge.{Edge};
    ghost use Rattle.toll_trace.specs.Edges.{IsEdge};
    ghost use Rattle.toll_trace.specs.Recorded.{Draws};

    /// No uses. It takes no memory yet.
    pub fn new(alloc: Global) -> Self
        ensures { (e : Edge) → Draws result e → ⊥ }
    {
        Recorded {
            consumptions: Vec::new(alloc),
            productions: Vec::new(alloc),
        }
    }

    /// Adds the lots that the slice's batches consumed and produced, unless a void has the movement's
    /// key. Lots with the same name in several slices are the same lot. It fails only if memory runs out.
    pub fn with(self, alloc: Global, slice: &Slice) -> Result<Self, AllocError>
        ensures { IfOk result
            (λ all. (e : Edge) → Draws all e ↔ (Draws self e ⊎ IsEdge slice.now e)) }
    {
        let Recorded {
            mut consumptions,
            mut productions,
        } = self;
        // Greater than any number before, unless the slices before had no uses.
        let number = consumptions.len() + productions.len();
        add_placed(
            &mut consumptions,
            number,
            &uses(alloc, slice, Role::Consumed)?,
        )?;
        add_placed(
            &mut productions,
            number,
            &uses(alloc, slice, Role::Produced)?,
        )?;
        Ok(Recorded {
            consumptions,
            productions,
        })
    }
}

/// Adds uses of lots by batches of the slice with this number.
fn add_placed(
    all: &mut Vec<(Place, LotId)>,
    number: usize,
    uses: &[(Batch, LotUse)],
) -> Result<(), AllocError>
    ensures { OnOk result (all.new.items ≡ all.old.items ++ map (placed_use number) uses.now) }
{
    for (batch, used) in uses {
        all.push((((number, *batch), used.segment), used.lot))?;
    }
    Ok(())
}
