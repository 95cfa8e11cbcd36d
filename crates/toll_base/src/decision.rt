//! Decisions, and the changes that they make.
ghost use Rattle.std.specs.Prelude.{◌≡◌, [], ◌∷◌, IfOk};
ghost use Rattle.toll_base.specs.Changes.{IsAccepted};

use crate::name::Name;
use crate::refusal::Refusal;
use crate::rows::{OwnerRow, Row, UnitRow};
use std::alloc::{AllocError, Global};

/// A change of the rows.
#[derive(Clone, Copy)]
pub enum Change {
    /// The owner is added.
    Owner(OwnerRow),
    /// The unit is added.
    Unit(UnitRow),
    /// The row is added to those of this owner, or replaces the one with its key.
    Put(Name, Row),
}

/// The decision on a command.
#[derive(Drop)]
pub enum Decision {
    /// The command makes these changes, in order.
    Accept(Vec<Change>),
    /// The command was done before, and changes nothing.
    Repeated,
    /// The command is refused.
    Refuse(Refusal),
}

impl Decision {
    /// The command makes this change. It fails only if memory runs out.
    pub fn accept(alloc: Global, change: Change) -> Result<Self, AllocError>
        ensures { IfOk result (λ d. IsAccepted (change ∷ []) d) }
    {
        Ok(Decision::Accept(vec![in alloc; change]?))
    }

    /// The command makes these changes, in order. It fails only if memory runs out.
    pub fn accept_all(alloc: Global, changes: &[Change]) -> Result<Self, AllocError>
        ensures { IfOk result (IsAccepted changes.now) }
    {
        Ok(Decision::Accept(changes.to_vec(alloc)?))
    }
}
