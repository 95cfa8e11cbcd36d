//! The totals of an owner's lots.
ghost use Rattle.std.specs.Prelude.{◌≡◌, IfOk};
ghost use Rattle.toll_stock.specs.Common.{lot_id, shipped, History, IsRowsOf, IsLawful};
ghost use Rattle.toll_stock.specs.LotTotals.{totals_in, totals_given, shipped_in};

use crate::shipped::Shipped;
use crate::stock::{Totals, on_hand_of};
use std::alloc::{AllocError, Global};
use std::marker::Model;
use toll_base::{Name, Slice};

/// An owner's rows, with what was shipped of each of its lots beside them, so that the totals of a lot
/// need no walk over the movements.
pub struct LotTotals {
    slice: Slice,
    shipped: Shipped,
}

impl Model for LotTotals {
    ghost use Rattle.toll_base.specs.Slice as shown;
    ghost use Rattle.toll_stock.specs.LotTotals.{AreShippedIn};

    ghost Value = { shown.Slice };

    ghost view = { λ t. t.slice };

    ghost invariant = { λ t. AreShippedIn t.slice t.shipped };
}

/// By hand, because a derived drop is written out at every exit of every function that owns one.
impl Drop for LotTotals {
    fn drop(self) {
        let LotTotals {
            slice: _,
            shipped: _,
        } = self;
    }
}

impl LotTotals {
    /// Of the lots of the slice's owner, by one walk over its movements. It fails only if memory runs out.
    pub fn new(alloc: Global, slice: Slice) -> Result<Self, AllocError>
        ensures { IfOk result (λ totals. totals ≡ slice) }
    {
        let shipped = Shipped::of(alloc, &slice)?;
        Ok(LotTotals { slice, shipped })
    }

    /// The rows of the owner whose lots these are.
    pub fn slice(&self) -> &Slice
        ensures { result.now ≡ self.now }
    {
        &self.slice
    }

    /// The totals of a lot; `None` if the owner has no such lot. It takes no memory, and looks at the
    /// lot's sublots alone.
    pub fn of_lot(&self, lot: &Name) -> Option<Totals>
        ensures rows { result ≡ totals_in self.now lot.now }
        ensures totals { (H : History) → IsLawful H → IsRowsOf H self.now
            → result ≡ totals_given H (lot_id self.now.owner lot.now) }
    {
        match self.slice.lot(lot) {
            None => None,
            Some(_) => Some(Totals {
                on_hand: on_hand_of(&self.slice, lot),
                shipped: self.shipped_of(lot),
            }),
        }
    }

    // What the lot's shipments took.
    fn shipped_of(&self, lot: &Name) -> u64
        ensures rows { result ≡ shipped_in self.now lot.now }
        ensures amount { (H : History) → IsLawful H → IsRowsOf H self.now
            → result ≡ shipped H (lot_id self.now.owner lot.now) }
    {
        // For the proof: movements are in the order of their keys.
        let _moves = self.slice.moves();
        self.shipped.amount(lot)
    }
}
