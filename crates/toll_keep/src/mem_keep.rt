//! A keep of lists in memory.
ghost use Rattle.std.specs.Prelude.{◌≡◌, ◌↔◌, ◌⊎◌, List, [], ◌∷◌, false, ⊤, IfOk, OnOk, OnErr, IsOkUnless};
ghost use Rattle.toll_keep.specs.Common.{AreEdges, IsEdge};
ghost use Rattle.toll_keep.specs.Content.{empty_content, knows, slice_of, content_after};
ghost use Rattle.toll_keep.specs.CallEffects.{IsAmong};
ghost use Rattle.toll_keep.specs.HeldFor.{AgreeFor};
ghost use Rattle.toll_keep.specs.Holding.{DrawsFor, IsEdgeOfSome, GivesTrace};
ghost use Rattle.toll_base.specs.declared.lot.Edge.{Edge};
ghost use Rattle.toll_trace.specs.Recorded.{Draws};
ghost use Rattle.toll_keep.specs.Slices.{content_of, rows_in};

use crate::everyone::edges_among;
use crate::holder::{Holder, holder_among};
use crate::keep::Keep;
use crate::keep_fault::KeepFault;
use crate::slices::{index_of_slice, put_for, shared_each, shared_of};
use std::alloc::{AllocError, Global};
use std::marker::Model;
use toll_base::{Change, Edge, LotId, Name, OwnerRow, Row, Slice, Table, UnitRow};
use toll_trace::{Graph, Recorded, Step, Way, edges_of, put_in_order};

/// Rows in lists. Its only fault is [`KeepFault::Memory`]. Only tests run it: the programs' rows are in
/// tables.
pub struct MemKeep {
    owners: Table<OwnerRow>,
    units: Table<UnitRow>,
    slices: Vec<Slice>,
}

impl Model for MemKeep {
    ghost use Rattle.toll_keep.specs.Slices.{Kept, kept_view, IsOneEach};

    ghost Value = { Kept };

    ghost view = { kept_view };

    ghost invariant = { λ k. IsOneEach k.slices.items };
}

/// Written by hand: a derived `Drop` is expanded at every exit of every function that owns a keep.
impl Drop for MemKeep {
    fn drop(self) {
        let MemKeep {
            owners: _,
            units: _,
            slices: _,
        } = self;
    }
}

impl MemKeep {
    /// No owners but HOUSE, no units, no rows. It takes no memory yet.
    pub fn new(alloc: Global) -> Self
        ensures empty { content_of result ≡ empty_content }
        ensures holds { ⟦<MemKeep as Keep>⟧.meaning.holds result empty_content }
    {
        MemKeep {
            owners: Table::new(alloc),
            units: Table::new(alloc),
            slices: Vec::new(alloc),
        }
    }

    fn knows(&self, owner: &Name) -> bool
        ensures { result ≡ knows (content_of self.now) owner.now }
    {
        *owner == Name::house() || self.owners.get(owner).is_some()
    }

    fn shared_slice(&mut self, alloc: Global, owner: &Name) -> Result<Option<Slice>, AllocError>
        ensures reads { IfOk result (λ slice. slice ≡ slice_of (content_of self.old) owner.now) }
        ensures same { self.new ≡ self.old }
    {
        if !self.knows(owner) {
            return Ok(None);
        }
        Ok(Some(shared_of(alloc, &mut self.slices, owner)?))
    }

    fn owners_edges(&self, alloc: Global, owner: &Name) -> Result<Vec<Edge>, AllocError>
        ensures { IfOk result (λ edges. AreEdges (IsEdge (rows_in self.now.slices owner.now)) edges.items) }
    {
        match index_of_slice(&self.slices, owner) {
            Some(at) => edges_of(alloc, &self.slices[at]),
            None => edges_of(alloc, &Slice::new(alloc, *owner)),
        }
    }

    fn everyones_edges(&self, alloc: Global) -> Result<Vec<Edge>, AllocError>
        ensures { IfOk result (λ edges. AreEdges (IsEdgeOfSome (content_of self.now)) edges.items) }
    {
        let mut edges = edges_among(alloc, &self.slices)?;
        put_in_order(&mut edges);
        Ok(edges)
    }

    fn recorded_by(&self, alloc: Global, owners: &[Name]) -> Result<Recorded, AllocError>
        ensures { IfOk result (DrawsFor (content_of self.now) owners.now) }
    {
        let mut recorded = Recorded::new(alloc);
        for owner in owners {
            recorded = self.recorded_with(alloc, recorded, owner)?;
        }
        Ok(recorded)
    }

    fn recorded_with(
        &self,
        alloc: Global,
        recorded: Recorded,
        owner: &Name,
    ) -> Result<Recorded, AllocError>
        ensures { IfOk result (λ all. (e : Edge) → Draws all e ↔ (Draws recorded e ⊎ IsEdge (rows_in self.now.slices owner.now) e)) }
    {
        match index_of_slice(&self.slices, owner) {
            Some(at) => recorded.with(alloc, &self.slices[at]),
            None => recorded.with(alloc, &Slice::new(alloc, *owner)),
        }
    }

    fn owners_trace(
        &self,
        alloc: Global,
        owners: &[Name],
        from: &LotId,
        way: Way,
    ) -> Result<Vec<Step>, AllocError>
        ensures { GivesTrace (content_of self.now) owners.now from.now way result }
    {
        let graph = Graph::of_recorded(alloc, self.recorded_by(alloc, owners)?)?;
        graph.trace(alloc, from, way)
    }

    // A copy that shares the rows.
    fn copy(&mut self, alloc: Global) -> Result<Self, AllocError>
        ensures copied { IfOk result (λ copied. copied ≡ self.old) }
        ensures same { self.new ≡ self.old }
    {
        Ok(MemKeep {
            slices: shared_each(alloc, &mut self.slices)?,
            owners: self.owners.copy(alloc)?,
            units: self.units.copy(alloc)?,
        })
    }

    // Makes the changes, in order. If memory runs out, or a row doesn't fit, the rows can't be used any
    // more.
    fn make_all(&mut self, alloc: Global, changes: &[Change]) -> Result<(), AllocError>
        ensures { OnOk result (content_of self.new ≡ content_after changes.now (content_of self.old)) }
    {
        for change in changes {
            self.make(alloc, change)?;
        }
        Ok(())
    }

    fn make(&mut self, alloc: Global, change: &Change) -> Result<(), AllocError>
        ensures { OnOk result (content_of self.new ≡ content_after (change.now ∷ []) (content_of self.old)) }
    {
        // This names the type for the proof: a change may have a row.
        let _row: Option<Row> = None;
        match change {
            Change::Owner(row) => self.owners.put(*row),
            Change::Unit(row) => self.units.put(*row),
            Change::Put(owner, row) => put_for(alloc, &mut self.slices, owner, row),
        }
    }

    // Makes the changes in a copy. The copy replaces the rows if all changes succeed.
    fn change(&mut self, alloc: Global, changes: &[Change]) -> Result<(), KeepFault>
        ensures all { OnOk result (content_of self.new ≡ content_after changes.now (content_of self.old)) }
        ensures none { OnErr result (content_of self.new ≡ content_of self.old) }
        ensures fault { IsOkUnless result KeepFault.Memory }
    {
        let mut copied = self.copy(alloc)?;
        copied.make_all(alloc, changes)?;
        *self = copied;
        Ok(())
    }
}

impl Keep for MemKeep {
    ghost meaning = { record {
      holds = λ k c. content_of k ≡ c;
      is_honest = λ _. ⊤;
      is_closed = λ _. false;
      is_store_open = λ _. ⊤;
      is_unsure = λ _. false;
      has_cause = λ _ _. ⊥;
      leaves = λ k cs. IsAmong (λ c. content_of k ≡ c) cs;
    } };

    ghost part = { λ os. record {
      holds = λ k c. AgreeFor os (content_of k) c;
      leaves = λ k cs. IsAmong (λ c. AgreeFor os (content_of k) c) cs;
    } };

    fn slice(&mut self, alloc: Global, owner: &Name) -> Result<Option<Slice>, KeepFault> {
        Ok(self.shared_slice(alloc, owner)?)
    }

    fn owners(&mut self, alloc: Global) -> Result<Vec<OwnerRow>, KeepFault> {
        Ok(self.owners.rows().to_vec(alloc)?)
    }

    fn units(&mut self, alloc: Global) -> Result<Vec<UnitRow>, KeepFault> {
        Ok(self.units.rows().to_vec(alloc)?)
    }

    fn holder(&mut self, _alloc: Global, unit: &Name) -> Result<Option<Holder>, KeepFault> {
        Ok(holder_among(&self.slices, unit))
    }

    fn edges(&mut self, alloc: Global, owner: &Name) -> Result<Vec<Edge>, KeepFault> {
        Ok(self.owners_edges(alloc, owner)?)
    }

    fn all_edges(&mut self, alloc: Global) -> Result<Vec<Edge>, KeepFault> {
        Ok(self.everyones_edges(alloc)?)
    }

    fn trace(
        &mut self,
        alloc: Global,
        owners: &[Name],
        from: &LotId,
        way: Way,
    ) -> Result<Vec<Step>, KeepFault> {
        Ok(self.owners_trace(alloc, owners, from, way)?)
    }

    fn apply(&mut self, alloc: Global, changes: &[Change]) -> Result<(), KeepFault> {
        self.change(alloc, changes)
    }

    ghost use Rattle.std.proofs.Common.{inl, refl};
    ghost use Rattle.toll_keep.specs.CallEffects.{among-more};

    ghost settled = { λ k c _ _ held. inl held };

    ghost lives_once = { λ _ _ _. refl };

    ghost widened = { λ k cs more. among-more (λ c. content_of k ≡ c) cs more };

    ghost use Rattle.toll_keep.specs.HeldFor.{same_agrees};

    ghost narrows = { λ os k c held. same_agrees os (content_of k) c held };

    ghost settled_for = { λ os k c _ _ held. inl held };

    ghost widened_for = { λ os k cs more. among-more (λ c. AgreeFor os (content_of k) c) cs more };
}
