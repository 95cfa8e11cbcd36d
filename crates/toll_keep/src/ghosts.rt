//! The ghosts of [`Keep`] for the keeps of this crate.
ghost use Rattle.std.specs.Prelude.{◌≡◌, ◌↔◌, false, List, Contains};
ghost use Rattle.toll_keep.specs.Content.{Content};
ghost use Rattle.toll_base.specs.Bytes.{Bytes};
ghost use Rattle.toll_keep.specs.Around.{HoldsAround, HoldsAroundFor};
ghost use Rattle.toll_keep.specs.CallEffects.{IsAmong};
ghost use Rattle.toll_keep.specs.HeldFor.{AgreeFor};
ghost use Rattle.toll_keep.specs.Slices.{Kept, content_of};
ghost use Rattle.toll_keep.specs.declared.cached_keep.CachedKeep.{CachedKeep};

use crate::cached_keep::CachedKeep;
use crate::keep::Keep;
use crate::mem_keep::MemKeep;

/// A keep in memory is always honest and live, never unsure or closed, and has no cause of Disk.
pub fn a_keep_in_memory_is_always_open()
    ensures honest { (k : Kept) → ⟦<MemKeep as Keep>⟧.meaning.is_honest k }
    ensures live { (k : Kept) → ⟦<MemKeep as Keep>⟧.meaning.is_store_open k }
    ensures sure { (k : Kept) → ⟦<MemKeep as Keep>⟧.meaning.is_unsure k ≡ false }
    ensures not_closed { (k : Kept) → ⟦<MemKeep as Keep>⟧.meaning.is_closed k ≡ false }
    ensures no_cause { (old new : Kept) → ⟦<MemKeep as Keep>⟧.meaning.has_cause old new → ⊥ }
{}

/// A keep in memory holds its own content and no other, and a stop leaves that content.
pub fn a_keep_in_memory_has_its_content()
    ensures holds { (k : Kept) (c : Content) → ⟦<MemKeep as Keep>⟧.meaning.holds k c ↔ (content_of k ≡ c) }
    ensures leaves { (k : Kept) (cs : List Content) → ⟦<MemKeep as Keep>⟧.meaning.leaves k cs ↔ Contains cs (content_of k) }
{}

/// For some owners, a keep in memory holds the contents that have its owners, its units and its rows of these
/// owners, and a stop leaves what one of them has.
pub fn a_keep_in_memory_has_rows_for_some_owners()
    ensures holds { (os : List Bytes) (k : Kept) (c : Content) → (⟦<MemKeep as Keep>⟧.part os).holds k c ↔ AgreeFor os (content_of k) c }
    ensures leaves { (os : List Bytes) (k : Kept) (cs : List Content) → (⟦<MemKeep as Keep>⟧.part os).leaves k cs
        ↔ IsAmong (λ c. AgreeFor os (content_of k) c) cs }
{}

/// A keep that remembers is honest, live, unsure or closed if and only if the keep inside is. It has the
/// same causes of Disk.
pub fn a_cached_keep_is_as_open_as_the_one_inside<K: Keep>()
    ensures honest { (r : CachedKeep K ⟦<K as Keep>⟧) → ⟦<CachedKeep<K> as Keep>⟧.meaning.is_honest r ↔ K.meaning.is_honest r.keep }
    ensures live { (r : CachedKeep K ⟦<K as Keep>⟧) → ⟦<CachedKeep<K> as Keep>⟧.meaning.is_store_open r ↔ K.meaning.is_store_open r.keep }
    ensures unsure { (r : CachedKeep K ⟦<K as Keep>⟧) → ⟦<CachedKeep<K> as Keep>⟧.meaning.is_unsure r ≡ K.meaning.is_unsure r.keep }
    ensures closed { (r : CachedKeep K ⟦<K as Keep>⟧) → ⟦<CachedKeep<K> as Keep>⟧.meaning.is_closed r ≡ K.meaning.is_closed r.keep }
    ensures cause { (old new : CachedKeep K ⟦<K as Keep>⟧) → ⟦<CachedKeep<K> as Keep>⟧.meaning.has_cause old new ↔ K.meaning.has_cause old.keep new.keep }
{}

/// A keep that remembers holds a content if and only if the keep inside holds it, all that is remembered
/// is of it, and only known owners have rows. A stop leaves what the keep inside leaves.
pub fn a_cached_keep_has_the_content_inside<K: Keep>()
    ensures holds { (r : CachedKeep K ⟦<K as Keep>⟧) (c : Content) → ⟦<CachedKeep<K> as Keep>⟧.meaning.holds r c ↔ HoldsAround K.meaning.holds r c }
    ensures leaves { (r : CachedKeep K ⟦<K as Keep>⟧) (cs : List Content) → ⟦<CachedKeep<K> as Keep>⟧.meaning.leaves r cs ↔ K.meaning.leaves r.keep cs }
{}

/// For some owners, a keep that remembers holds a content if and only if the keep inside holds it for them,
/// what is remembered of them is of it, and only known ones of them have rows. A stop leaves what the keep
/// inside leaves.
pub fn a_cached_keep_has_rows_for_some_owners<K: Keep>()
    ensures holds { (os : List Bytes) (r : CachedKeep K ⟦<K as Keep>⟧) (c : Content) → (⟦<CachedKeep<K> as Keep>⟧.part os).holds r c
        ↔ HoldsAroundFor os (K.part os).holds r c }
    ensures leaves { (os : List Bytes) (r : CachedKeep K ⟦<K as Keep>⟧) (cs : List Content) → (⟦<CachedKeep<K> as Keep>⟧.part os).leaves r cs
        ↔ (K.part os).leaves r.keep cs }
{}
