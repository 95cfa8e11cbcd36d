//! Owners' requests.
use crate::bounded::BatchNo;
use crate::name::Name;
use crate::rows::Placing;

/// What an owner asks for.
#[derive(Clone, Copy)]
pub enum Request {
    /// All orders, by name.
    Orders,
    /// One order: `UnknownOrder` if there is none of this name.
    Order(Name),
    /// Placing an order, as `place_order` of `toll_work` says.
    Place(Placing),
    /// Cancelling an order, as `cancel_order` of `toll_work` says.
    Cancel(Name),
    /// A batch, with the amounts it consumed or produced for each requirement:
    /// `UnknownOrder`, then `UnknownBatch`.
    Batch { order: Name, number: BatchNo },
    /// All lots of the owner, by name, with the amount on hand of each.
    Stock,
    /// One lot: `UnknownLot` if the owner has none of this name.
    Lot(Name),
    /// Releasing a lot, as `release` of `toll_stock` says.
    Release(Name),
    /// Rejecting a lot, as `reject` of `toll_stock` says.
    Reject(Name),
    /// The lots that went into a lot of the owner: `UnknownLot`.
    Back(Name),
    /// The lots that a lot of the owner went into: `UnknownLot`.
    Forward(Name),
    /// The lots that a lot of HOUSE went into: `UnknownLot` if no batch of the owner
    /// consumed it.
    HouseForward(Name),
}
