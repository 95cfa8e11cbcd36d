//! What was shipped of each lot.
ghost use Rattle.std.specs.Prelude.{◌≡◌, ◌+◌, ◌<◌, ◌^◌, if◌then◌else◌, IfOk, OnOk};
ghost use Rattle.toll_stock.specs.Common.{Bytes};
ghost use Rattle.toll_stock.specs.LotTotals.{AreShippedIn, amount_of, is_shipment_of, lot_shipped};

use std::alloc::{AllocError, Global};
use std::collections::BTreeMap;
use toll_base::{Move, Name, Slice};

/// How much was shipped of each lot of an owner, each lot once, in the order of the lots.
#[derive(Drop)]
pub(crate) struct Shipped {
    amounts: BTreeMap<Name, u64>,
}

impl Shipped {
    /// Of the lots of the slice's owner, by one walk over its movements.
    pub(crate) fn of(alloc: Global, slice: &Slice) -> Result<Self, AllocError>
        ensures { IfOk result (AreShippedIn slice.now) }
    {
        // For the proof: the amounts of rows that keep the rules fit.
        let _owner = slice.owner();
        let mut shipped = Shipped {
            amounts: BTreeMap::new(alloc),
        };
        for row in slice.moves().iter() {
            shipped.add(&row.what, row.amount.get())?;
        }
        Ok(shipped)
    }

    /// How much was shipped of the lot: 0 if it has no amount.
    pub(crate) fn amount(&self, lot: &Name) -> u64
        ensures { result ≡ amount_of self.now lot.now }
    {
        match self.amounts.get(lot) {
            Some(amount) => *amount,
            None => 0,
        }
    }

    // Adds the movement's amount, if it is a shipment.
    fn add(&mut self, what: &Move, amount: u64) -> Result<(), AllocError>
        requires { (lot : Bytes) → amount_of self.old lot + amount < 2 ^ 64 }
        ensures { OnOk result ((lot : Bytes) → amount_of self.new lot
            ≡ amount_of self.old lot + (if is_shipment_of lot what.now then amount else 0)) }
    {
        let Some(lot) = lot_shipped(what) else {
            return Ok(());
        };
        let sum = self.amount(&lot) + amount;
        self.amounts.insert(lot, sum)?;
        Ok(())
    }
}

// The lot that the movement ships, if it is a shipment.
fn lot_shipped(what: &Move) -> Option<Name>
    ensures { result ≡ lot_shipped what.now }
{
    match *what {
        Move::Ship { lot, .. } => Some(lot),
        _ => None,
    }
}
