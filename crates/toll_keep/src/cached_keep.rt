//! A keep that remembers what it read.
ghost use Rattle.std.specs.Prelude.{◌≡◌, ◌≢◌, ◌↔◌, List, Contains, [], ◌∷◌, Err, IfOk, IfSome, OnErr, OnOk, false};
ghost use Rattle.toll_keep.specs.Common.{AreEdges, Bytes, IsEdge};
ghost use Rattle.toll_keep.specs.CallEffects.{CallEffect, IsReading, IsSpared};
ghost use Rattle.toll_keep.specs.Content.{AllChangesFit, Content, ContentKeepsRules, content_after, slice_of};
ghost use Rattle.toll_keep.specs.Fault.{damaged_owner_after};
ghost use Rattle.toll_keep.specs.HeldFor.{AreAmong, KeepsHeld, MakesHeld, PutsOutside, ReadsHeld};
ghost use Rattle.toll_keep.specs.Holding.{GivesTrace, IsEdgeOfSome, IsHolder};
ghost use Rattle.toll_keep.specs.Meaning.{OverContent, OverLive};
ghost use Rattle.toll_keep.specs.Remembered.{IsNothing, IsCacheOf, OnlyKnownHaveRows};

use crate::cache::Cache;
use crate::cached_reading::{read_rows, read_slice};
use crate::holder::Holder;
use crate::keep::Keep;
use crate::keep_fault::KeepFault;
use crate::tracing::read_trace;
use std::alloc::Global;
use std::mem;
use toll_base::{Change, Edge, LotId, Name, OwnerRow, Row, Slice, UnitRow};
use toll_trace::{Step, Way};

/// A keep around another one. It remembers the slices, the owners and the units that it read, and the
/// graphs of owners over which it traced. Changes are made in the slices too, in place if no copy given to
/// a caller is left. It forgets the owners and the units if one is added, and an owner's graph if its edges
/// may change. At any fault it forgets everything, but remembers the owner whose slice it read when the keep
/// inside answered [`KeepFault::Damaged`].
pub struct CachedKeep<K: Keep> {
    keep: K,
    cache: Cache,
    damaged_owner: Option<Name>,
    ghost unclosed: { ¬ (IsNothing cache) → K.meaning.is_closed keep ≡ false },
    ghost live: { ¬ (IsNothing cache) → K.meaning.is_honest keep → ∥ K.meaning.is_store_open keep ∥₁ },
}

/// Written by hand: a derived `Drop` is expanded at every exit of every function that owns a keep.
impl<K: Keep + Drop> Drop for CachedKeep<K> {
    fn drop(self) {
        let CachedKeep {
            keep: _,
            cache: _,
            damaged_owner: _,
        } = self;
    }
}

impl<K: Keep> CachedKeep<K> {
    /// A keep around this one. It holds what this one holds, if only known owners have rows. It remembers
    /// nothing yet, and takes no memory.
    pub fn new(alloc: Global, keep: K) -> Self
        ensures keep { result.keep ≡ keep }
        ensures nothing { IsNothing result.cache }
        ensures undamaged { result.damaged_owner ≡ None }
        ensures holds { (c : Content) → ⟦<CachedKeep<K> as Keep>⟧.meaning.holds result c ↔ (K.meaning.holds keep c × OnlyKnownHaveRows c) }
    {
        CachedKeep {
            keep,
            cache: Cache::nothing(alloc),
            damaged_owner: None,
        }
    }

    /// The keep inside, open or closed as it was.
    pub fn inside(self) -> K
        ensures { result ≡ self.keep }
    {
        let CachedKeep {
            keep,
            cache: _,
            damaged_owner: _,
        } = self;
        keep
    }

    /// The owner whose rows the keep inside found damaged, if a call for an owner's slice did.
    pub fn damaged_owner(&self) -> Option<Name>
        ensures { result ≡ self.now.damaged_owner }
    {
        self.damaged_owner
    }
}

// Passes the answer on. If it is a fault, everything is forgotten.
fn or_forget<T>(
    alloc: Global,
    cache: &mut Cache,
    answer: Result<T, KeepFault>,
) -> Result<T, KeepFault>
    ensures same { result ≡ answer }
    ensures kept { OnOk answer (cache.new ≡ cache.old) }
    ensures forgotten { OnErr answer (IsNothing cache.new) }
{
    if answer.is_err() {
        *cache = Cache::nothing(alloc);
    }
    answer
}

// The owner whose rows met damage, once a call for this owner's slice was answered.
fn damaged_owner_after<T>(
    owner: &Name,
    answer: &Result<T, KeepFault>,
    before: Option<Name>,
) -> Option<Name>
    ensures { result ≡ damaged_owner_after owner.now answer.now before }
{
    match answer {
        Err(KeepFault::Damaged) => Some(*owner),
        Ok(_) | Err(KeepFault::Memory | KeepFault::Disk | KeepFault::Closed) => before,
    }
}

impl<K: Keep> Keep for CachedKeep<K> {
    ghost use Rattle.toll_keep.specs.Around.{cached_for, cached_part};

    ghost meaning = { record {
      holds = λ r c. K.meaning.holds r.keep c × IsCacheOf c r.cache × OnlyKnownHaveRows c;
      is_honest = λ r. K.meaning.is_honest r.keep;
      is_closed = λ r. K.meaning.is_closed r.keep;
      is_store_open = λ r. K.meaning.is_store_open r.keep;
      is_unsure = λ r. K.meaning.is_unsure r.keep;
      has_cause = λ r s. K.meaning.has_cause r.keep s.keep;
      leaves = λ r cs. K.meaning.leaves r.keep cs;
    } };

    ghost part = { cached_part ⟦<K as Keep>⟧ };

    fn slice(&mut self, alloc: Global, owner: &Name) -> Result<Option<Slice>, KeepFault>
        ensures reading { IsReading ⟦<CachedKeep<K> as Keep>⟧.meaning self.old self.new result }
        ensures reads { OverContent ⟦<CachedKeep<K> as Keep>⟧.meaning self.old self.new (λ c. IfOk result (λ slice. slice ≡ slice_of c owner.now)) }
        ensures alone { (os : List Bytes) → Contains os owner.now → ReadsHeld (cached_for ⟦<K as Keep>⟧ os) self.old self.new result
            (λ c. IfOk result (λ slice. slice ≡ slice_of c owner.now)) }
        ensures others { (os : List Bytes) → KeepsHeld (cached_for ⟦<K as Keep>⟧ os) self.old self.new result }
        ensures named { IfOk result (λ slice. IfSome slice (λ s. s.owner ≡ owner.now)) }
        ensures damaged { self.new.damaged_owner ≡ damaged_owner_after owner.now result self.old.damaged_owner }
    {
        let CachedKeep {
            keep,
            cache,
            damaged_owner,
        } = self;
        let answer = read_slice(alloc, keep, &mut cache.slices, &[], owner);
        *damaged_owner = damaged_owner_after(owner, &answer, *damaged_owner);
        or_forget(alloc, cache, answer)
    }

    fn owners(&mut self, alloc: Global) -> Result<Vec<OwnerRow>, KeepFault>
        ensures reading { IsReading ⟦<CachedKeep<K> as Keep>⟧.meaning self.old self.new result }
        ensures reads { OverContent ⟦<CachedKeep<K> as Keep>⟧.meaning self.old self.new (λ c. IfOk result (λ rows. rows.items ≡ c.owners)) }
        ensures alone { (os : List Bytes) → ReadsHeld (cached_for ⟦<K as Keep>⟧ os) self.old self.new result
            (λ c. IfOk result (λ rows. rows.items ≡ c.owners)) }
        ensures left { self.new.damaged_owner ≡ self.old.damaged_owner }
    {
        let CachedKeep { keep, cache, .. } = self;
        let answer = read_rows(alloc, keep, &mut cache.owners);
        or_forget(alloc, cache, answer)
    }

    fn units(&mut self, alloc: Global) -> Result<Vec<UnitRow>, KeepFault>
        ensures reading { IsReading ⟦<CachedKeep<K> as Keep>⟧.meaning self.old self.new result }
        ensures reads { OverContent ⟦<CachedKeep<K> as Keep>⟧.meaning self.old self.new (λ c. IfOk result (λ rows. rows.items ≡ c.units)) }
        ensures alone { (os : List Bytes) → ReadsHeld (cached_for ⟦<K as Keep>⟧ os) self.old self.new result
            (λ c. IfOk result (λ rows. rows.items ≡ c.units)) }
        ensures left { self.new.damaged_owner ≡ self.old.damaged_owner }
    {
        let CachedKeep { keep, cache, .. } = self;
        let answer = read_rows(alloc, keep, &mut cache.units);
        or_forget(alloc, cache, answer)
    }

    fn holder(&mut self, alloc: Global, unit: &Name) -> Result<Option<Holder>, KeepFault>
        ensures reading { IsReading ⟦<CachedKeep<K> as Keep>⟧.meaning self.old self.new result }
        ensures reads { OverContent ⟦<CachedKeep<K> as Keep>⟧.meaning self.old self.new (λ c. IfOk result (IsHolder c unit.now)) }
        ensures others { (os : List Bytes) → KeepsHeld (cached_for ⟦<K as Keep>⟧ os) self.old self.new result }
        ensures left { self.new.damaged_owner ≡ self.old.damaged_owner }
    {
        let CachedKeep { keep, cache, .. } = self;
        let answer = keep.holder(alloc, unit);
        or_forget(alloc, cache, answer)
    }

    fn edges(&mut self, alloc: Global, owner: &Name) -> Result<Vec<Edge>, KeepFault>
        ensures reading { IsReading ⟦<CachedKeep<K> as Keep>⟧.meaning self.old self.new result }
        ensures reads { OverContent ⟦<CachedKeep<K> as Keep>⟧.meaning self.old self.new (λ c. IfOk result (λ edges. AreEdges (IsEdge (c.rows owner.now)) edges.items)) }
        ensures others { (os : List Bytes) → KeepsHeld (cached_for ⟦<K as Keep>⟧ os) self.old self.new result }
        ensures left { self.new.damaged_owner ≡ self.old.damaged_owner }
    {
        let CachedKeep { keep, cache, .. } = self;
        let answer = keep.edges(alloc, owner);
        or_forget(alloc, cache, answer)
    }

    fn all_edges(&mut self, alloc: Global) -> Result<Vec<Edge>, KeepFault>
        ensures reading { IsReading ⟦<CachedKeep<K> as Keep>⟧.meaning self.old self.new result }
        ensures reads { OverContent ⟦<CachedKeep<K> as Keep>⟧.meaning self.old self.new (λ c. IfOk result (λ edges. AreEdges (IsEdgeOfSome c) edges.items)) }
        ensures others { (os : List Bytes) → KeepsHeld (cached_for ⟦<K as Keep>⟧ os) self.old self.new result }
        ensures left { self.new.damaged_owner ≡ self.old.damaged_owner }
    {
        let CachedKeep { keep, cache, .. } = self;
        let answer = keep.all_edges(alloc);
        or_forget(alloc, cache, answer)
    }

    fn trace(
        &mut self,
        alloc: Global,
        owners: &[Name],
        from: &LotId,
        way: Way,
    ) -> Result<Vec<Step>, KeepFault>
        ensures reading { IsReading ⟦<CachedKeep<K> as Keep>⟧.meaning self.old self.new result }
        ensures reads { OverContent ⟦<CachedKeep<K> as Keep>⟧.meaning self.old self.new (λ c. GivesTrace c owners.now from.now way result) }
        ensures alone { (os : List Bytes) → AreAmong owners.now os → ReadsHeld (cached_for ⟦<K as Keep>⟧ os) self.old self.new result
            (λ c. GivesTrace c owners.now from.now way result) }
        ensures others { (os : List Bytes) → KeepsHeld (cached_for ⟦<K as Keep>⟧ os) self.old self.new result }
        ensures left { self.new.damaged_owner ≡ self.old.damaged_owner }
    {
        let CachedKeep { keep, cache, .. } = self;
        let answer = read_trace(alloc, keep, cache, owners, from, way);
        or_forget(alloc, cache, answer)
    }

    // The keep inside makes the changes first: it alone can refuse them. The remembered rows are taken
    // out before, and put back if all changes succeed.
    fn apply(&mut self, alloc: Global, changes: &[Change]) -> Result<(), KeepFault>
        ensures goes { CallEffect ⟦<CachedKeep<K> as Keep>⟧.meaning self.old self.new result }
        ensures all { OverContent ⟦<CachedKeep<K> as Keep>⟧.meaning self.old self.new (λ c. AllChangesFit c changes.now
            → OnOk result (⟦<CachedKeep<K> as Keep>⟧.meaning.holds self.new (content_after changes.now c))) }
        ensures none { OverContent ⟦<CachedKeep<K> as Keep>⟧.meaning self.old self.new (λ c. OnErr result (⟦<CachedKeep<K> as Keep>⟧.meaning.holds self.new c)) }
        ensures spared { result ≡ Err KeepFault.Memory → IsSpared ⟦<CachedKeep<K> as Keep>⟧.meaning self.old self.new }
        ensures whole { OverContent ⟦<CachedKeep<K> as Keep>⟧.meaning self.old self.new (λ c. ContentKeepsRules c → result ≢ Err KeepFault.Damaged) }
        ensures crash { OverLive ⟦<CachedKeep<K> as Keep>⟧.meaning self.old self.new (λ c. AllChangesFit c changes.now
            → ⟦<CachedKeep<K> as Keep>⟧.meaning.leaves self.new (c ∷ content_after changes.now c ∷ [])) }
        ensures alone { (os : List Bytes) → MakesHeld (cached_for ⟦<K as Keep>⟧ os) self.old self.new result changes.now }
        ensures others { (os : List Bytes) → PutsOutside os changes.now → KeepsHeld (cached_for ⟦<K as Keep>⟧ os) self.old self.new result }
        ensures left { self.new.damaged_owner ≡ self.old.damaged_owner }
    {
        // This names the type for the proof: a change may have a row.
        let _row: Option<Row> = None;
        let mut cache = mem::replace(&mut self.cache, Cache::nothing(alloc));
        self.keep.apply(alloc, changes)?;
        if cache.follow(alloc, changes).is_ok() {
            self.cache = cache;
        }
        Ok(())
    }

    ghost settled = { λ r c honest live held. K.settled r.keep c honest live held.0 };

    ghost lives_once = { λ r. K.lives_once r.keep };

    ghost widened = { λ r cs more left. K.widened r.keep cs more left };

    ghost use Rattle.toll_keep.specs.Around.{cache_narrowed, known_narrowed};

    ghost narrows = { λ os r c held. (K.narrows os r.keep c held.0, cache_narrowed os c r.cache held.1, known_narrowed os c held.2) };

    ghost settled_for = { λ os r c honest live held. K.settled_for os r.keep c honest live held.0 };

    ghost widened_for = { λ os r cs more left. K.widened_for os r.keep cs more left };
}
