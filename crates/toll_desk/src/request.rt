//! The replies to owners' requests, and their plans.
ghost use Rattle.std.specs.Prelude.{◌≡◌};
ghost use Rattle.toll_desk.specs.Translations.{meaning_of_reply};
ghost use Rattle.toll_desk.specs.Outcome.{finished};

use crate::plan::Plan;
use toll_answers::{LotView, StockLine};
use toll_base::{OrderRow, Refusal};
use toll_keep::KeepFault;
use toll_trace::Step;
use toll_work::BatchView;

/// The reply to an owner's request.
#[derive(Drop)]
pub enum Reply {
    /// The client isn't an owner with that key.
    Forbidden,
    Orders(Vec<OrderRow>),
    Order(OrderRow),
    Batch(BatchView),
    Stock(Vec<StockLine>),
    Lot(LotView),
    /// The requested lots, by steps, owner and name.
    Trace(Vec<Step>),
    Refused(Refusal),
    Fault(KeepFault),
}

/// The plan of an owner's request.
pub type Planned = Plan<Reply>;

impl Plan<Reply> {
    /// The reply after the attempt to make the changes.
    pub fn finished(self, made: Result<(), KeepFault>) -> Reply
        ensures { meaning_of_reply result ≡ finished (meaning_of_reply self.reply) made }
    {
        match made {
            Ok(()) => self.reply,
            Err(fault) => Reply::Fault(fault),
        }
    }
}
