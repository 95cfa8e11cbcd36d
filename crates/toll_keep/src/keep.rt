//! The keep of the office's rows.
ghost use Rattle.std.specs.Prelude.{◌≡◌, ◌≢◌, Err, List, Contains, [], ◌∷◌, ◌++◌, IfOk, IfSome, OnOk, OnErr};
ghost use Rattle.toll_keep.specs.Common.{AreEdges, Bytes, IsEdge};
ghost use Rattle.toll_keep.specs.Content.{Content, slice_of, content_after, AllChangesFit, ContentKeepsRules};
ghost use Rattle.toll_keep.specs.CallEffects.{CallEffect, IsReading, IsSpared};
ghost use Rattle.toll_keep.specs.HeldFor.{AreAmong, KeepsHeld, MakesHeld, PutsOutside, ReadsHeld};
ghost use Rattle.toll_keep.specs.Holding.{IsHolder, IsEdgeOfSome, GivesTrace};
ghost use Rattle.toll_keep.specs.Meaning.{Meaning, OverContent, OverLive, Part, meaning_for};

use crate::holder::Holder;
use crate::keep_fault::KeepFault;
use std::alloc::Global;
use toll_base::{Change, Edge, LotId, Name, OwnerRow, Slice, UnitRow};
use toll_trace::{Step, Way};

/// The keep of the rows of the plant and of each owner.
///
/// A call that answers [`KeepFault::Memory`] changed nothing, and the keep goes on. A live store stays
/// live, the keep holds what it held, and a stop leaves just that. The one exception is a keep without
/// the memory to ask whether its store is still live (`is_unsure`): it asks at its next call. After
/// [`KeepFault::Disk`] or [`KeepFault::Damaged`] every call answers [`KeepFault::Closed`]. The keep then
/// counts as holding the rows from before the failed call. `leaves` says what its store has when it is
/// opened again.
pub trait Keep {
    // What a keep of this type means: what it holds, when it is honest, live and closed, what a stop leaves.
    ghost meaning: { Meaning Self };

    // What it holds for some owners, and what a stop leaves of that, whatever it has of others.
    ghost part: { List Bytes → Part Self };

    /// All rows of an owner: `None` for an unknown owner. HOUSE is always known.
    fn slice(&mut self, alloc: Global, owner: &Name) -> Result<Option<Slice>, KeepFault>
        ensures reading { IsReading meaning self.old self.new result }
        ensures reads { OverContent meaning self.old self.new (λ c. IfOk result (λ slice. slice ≡ slice_of c owner.now)) }
        ensures alone { (os : List Bytes) → Contains os owner.now → ReadsHeld (meaning_for meaning part os) self.old self.new result
            (λ c. IfOk result (λ slice. slice ≡ slice_of c owner.now)) }
        ensures others { (os : List Bytes) → KeepsHeld (meaning_for meaning part os) self.old self.new result }
        ensures named { IfOk result (λ slice. IfSome slice (λ s. s.owner ≡ owner.now)) };

    /// The owners besides HOUSE, in the order of their names.
    fn owners(&mut self, alloc: Global) -> Result<Vec<OwnerRow>, KeepFault>
        ensures reading { IsReading meaning self.old self.new result }
        ensures reads { OverContent meaning self.old self.new (λ c. IfOk result (λ rows. rows.items ≡ c.owners)) }
        ensures alone { (os : List Bytes) → ReadsHeld (meaning_for meaning part os) self.old self.new result
            (λ c. IfOk result (λ rows. rows.items ≡ c.owners)) };

    /// The units, in the order of their names.
    fn units(&mut self, alloc: Global) -> Result<Vec<UnitRow>, KeepFault>
        ensures reading { IsReading meaning self.old self.new result }
        ensures reads { OverContent meaning self.old self.new (λ c. IfOk result (λ rows. rows.items ≡ c.units)) }
        ensures alone { (os : List Bytes) → ReadsHeld (meaning_for meaning part os) self.old self.new result
            (λ c. IfOk result (λ rows. rows.items ≡ c.units)) };

    /// The batch, of any owner, that holds the unit: `None` if no batch does.
    fn holder(&mut self, alloc: Global, unit: &Name) -> Result<Option<Holder>, KeepFault>
        ensures reading { IsReading meaning self.old self.new result }
        ensures reads { OverContent meaning self.old self.new (λ c. IfOk result (IsHolder c unit.now)) }
        ensures others { (os : List Bytes) → KeepsHeld (meaning_for meaning part os) self.old self.new result };

    /// The genealogy of an owner's own batches, in order, each edge once: empty for an unknown owner. Only
    /// tests call it: programs follow edges with [`Keep::trace`].
    fn edges(&mut self, alloc: Global, owner: &Name) -> Result<Vec<Edge>, KeepFault>
        ensures reading { IsReading meaning self.old self.new result }
        ensures reads { OverContent meaning self.old self.new (λ c. IfOk result (λ edges. AreEdges (IsEdge (c.rows owner.now)) edges.items)) }
        ensures others { (os : List Bytes) → KeepsHeld (meaning_for meaning part os) self.old self.new result };

    /// The genealogy of all batches, in order, each edge once. Only tests call it.
    fn all_edges(&mut self, alloc: Global) -> Result<Vec<Edge>, KeepFault>
        ensures reading { IsReading meaning self.old self.new result }
        ensures reads { OverContent meaning self.old self.new (λ c. IfOk result (λ edges. AreEdges (IsEdgeOfSome c) edges.items)) }
        ensures others { (os : List Bytes) → KeepsHeld (meaning_for meaning part os) self.old self.new result };

    /// Every lot that ends a chain of the edges of these owners' own batches from the lot, the lot itself
    /// included: the same steps as those of `toll_trace::Graph::trace`. An unknown owner has no edges.
    fn trace(
        &mut self,
        alloc: Global,
        owners: &[Name],
        from: &LotId,
        way: Way,
    ) -> Result<Vec<Step>, KeepFault>
        ensures reading { IsReading meaning self.old self.new result }
        ensures reads { OverContent meaning self.old self.new (λ c. GivesTrace c owners.now from.now way result) }
        ensures alone { (os : List Bytes) → AreAmong owners.now os → ReadsHeld (meaning_for meaning part os) self.old self.new result
            (λ c. GivesTrace c owners.now from.now way result) }
        ensures others { (os : List Bytes) → KeepsHeld (meaning_for meaning part os) self.old self.new result };

    /// Makes all of these changes, in order, or none.
    ///
    /// The caller ensures that each row that is put is HOUSE's, or of an owner that is known or added
    /// before it in the list. The caller also ensures that after each change its owner's rows keep the
    /// rules of a [`Slice`]. If a stop or a disk fault interrupts the call, the store, opened again, has
    /// the rows from before or those after all changes, never some.
    fn apply(&mut self, alloc: Global, changes: &[Change]) -> Result<(), KeepFault>
        ensures goes { CallEffect meaning self.old self.new result }
        ensures all { OverContent meaning self.old self.new (λ c. AllChangesFit c changes.now
            → OnOk result (meaning.holds self.new (content_after changes.now c))) }
        ensures none { OverContent meaning self.old self.new (λ c. OnErr result (meaning.holds self.new c)) }
        ensures spared { result ≡ Err KeepFault.Memory → IsSpared meaning self.old self.new }
        ensures whole { OverContent meaning self.old self.new (λ c. ContentKeepsRules c → result ≢ Err KeepFault.Damaged) }
        ensures crash { OverLive meaning self.old self.new (λ c. AllChangesFit c changes.now
            → meaning.leaves self.new (c ∷ content_after changes.now c ∷ [])) }
        ensures alone { (os : List Bytes) → MakesHeld (meaning_for meaning part os) self.old self.new result changes.now }
        ensures others { (os : List Bytes) → PutsOutside os changes.now → KeepsHeld (meaning_for meaning part os) self.old self.new result };

    // While the store lives, a stop between two calls leaves the content and nothing else.
    ghost settled: { (k : Self) (c : Content) → meaning.is_honest k → meaning.is_store_open k → meaning.holds k c → meaning.leaves k (c ∷ []) };

    // There is one proof at most that a store is live.
    ghost lives_once: { (k : Self) (a b : meaning.is_store_open k) → a ≡ b };

    // If a stop leaves one of some contents, it also leaves one of more contents.
    ghost widened: { (k : Self) (cs more : List Content) → meaning.leaves k cs → meaning.leaves k (cs ++ more) };

    // What is held is held for any owners.
    ghost narrows: { (os : List Bytes) (k : Self) (c : Content) → meaning.holds k c → (part os).holds k c };

    // For some owners too, a stop between two calls leaves the content and nothing else, while the store lives.
    ghost settled_for: { (os : List Bytes) (k : Self) (c : Content)
        → meaning.is_honest k → meaning.is_store_open k → (part os).holds k c → (part os).leaves k (c ∷ []) };

    // For some owners too, if a stop leaves one of some contents, it also leaves one of more contents.
    ghost widened_for: { (os : List Bytes) (k : Self) (cs more : List Content) → (part os).leaves k cs → (part os).leaves k (cs ++ more) };
}
