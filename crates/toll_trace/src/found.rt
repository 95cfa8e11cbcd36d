//! The lots that a trace has found so far.
ghost use Rattle.std.specs.Prelude.{◌≡◌, ◌^◌, ◌<◌, [], ◌∷◌, ◌++◌, map, length, IfOk, OnOk};
ghost use Rattle.toll_trace.specs.Search.{step_at, is_found};

use crate::step::Step;
use std::alloc::{AllocError, Global};
use std::collections::BTreeSet;
use std::marker::Model;
use toll_base::LotId;

/// Steps in the order in which they were found, with an index of their lots.
#[derive(Drop)]
pub(crate) struct Found {
    steps: Vec<Step>,
    lots: BTreeSet<LotId>,
}

impl Model for Found {
    ghost use Rattle.std.specs.Prelude.{◌≡◌, List};
    ghost use Rattle.std.specs.BTreeSet.{contains};
    ghost use Rattle.toll_base.specs.Lots.{lot_cmp};
    ghost use Rattle.toll_trace.specs.Search.{is_found};
    ghost use Rattle.toll_trace.specs.declared.step.Step.{Step};

    ghost Value = { List Step };

    ghost view = { λ found. found.steps.items };

    ghost invariant = { λ found. (lot : _) → contains lot_cmp found.lots lot ≡ is_found found.steps.items lot };
}

impl Found {
    /// The lot that a trace starts from.
    pub(crate) fn new(alloc: Global, from: &LotId) -> Result<Self, AllocError>
        ensures start { IfOk result (λ found. found ≡ step_at 0 from.now ∷ []) }
        ensures fits { IfOk result (λ found. length found < 2 ^ 63) }
    {
        let mut steps = Vec::new(alloc);
        steps.push(Step {
            steps: 0,
            lot: *from,
        })?;
        let mut lots = BTreeSet::new(alloc);
        lots.insert(*from)?;
        Ok(Found { steps, lots })
    }

    /// Whether the lot is found.
    pub(crate) fn has(&self, lot: &LotId) -> bool
        ensures { result ≡ is_found self.now lot.now }
    {
        self.lots.contains(lot)
    }

    /// Adds lots, each after this number of steps.
    pub(crate) fn add(&mut self, steps: u64, lots: &[LotId]) -> Result<(), AllocError>
        ensures added { OnOk result (self.new ≡ self.old ++ map (step_at steps) lots.now) }
        ensures fits { OnOk result (length self.new < 2 ^ 63) }
    {
        for lot in lots {
            self.steps.reserve(1)?;
            self.lots.insert(*lot)?;
            self.steps.push_reserved(Step { steps, lot: *lot });
        }
        Ok(())
    }

    /// The steps, in the order in which their lots were found.
    pub(crate) fn into_steps(self) -> Vec<Step>
        ensures { result.items ≡ self }
    {
        self.steps
    }
}
