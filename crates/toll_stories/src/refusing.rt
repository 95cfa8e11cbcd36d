//! A keep that once has no memory, and counts what is read of it.
ghost use Rattle.std.specs.Prelude.{◌≡◌, Err, IfErr, OnOk};
ghost use Rattle.toll_keep.specs.Meaning.{meaning_of};

use std::alloc::Global;
use toll_base::{Change, Edge, LotId, Name, OwnerRow, Slice, UnitRow};
use toll_keep::{Holder, Keep, KeepFault};
use toll_trace::{Step, Way};

/// Which call a keep refuses.
#[derive(Clone, Copy, Debug, PartialEq, Eq)]
pub enum Refused {
    /// The next `apply`.
    Apply,
    /// Any call that follows this many others.
    Behind(u64),
    /// None, or none any more.
    None,
}

// What a call does.
#[derive(Clone, Copy, PartialEq, Eq)]
enum Call {
    Read,
    Apply,
}

impl Refused {
    // Whether it is this call.
    fn is_next(self, call: Call) -> bool {
        match self {
            Refused::Apply => call == Call::Apply,
            Refused::Behind(calls) => calls == 0,
            Refused::None => false,
        }
    }

    // The call that is refused, counted from after this one.
    fn after(self, call: Call) -> Self {
        match self {
            Refused::Apply if call == Call::Read => Refused::Apply,
            Refused::Behind(calls) if calls > 0 => Refused::Behind(calls - 1),
            Refused::Apply | Refused::Behind(_) | Refused::None => Refused::None,
        }
    }
}

/// A keep around another one. It answers one call with [`KeepFault::Memory`] and passes on all others.
pub struct Refusing<K> {
    /// The keep that it is around.
    pub keep: K,
    /// The call that is refused.
    pub refused: Refused,
    /// How many calls have read rows.
    pub reads: u64,
}

/// By hand, since what is derived is written out at every exit of every function that owns a keep.
impl<K: Drop> Drop for Refusing<K> {
    fn drop(self) {
        let Refusing {
            keep: _,
            refused: _,
            reads: _,
        } = self;
    }
}

impl<K: Keep> Refusing<K> {
    /// Around this keep.
    pub fn new(keep: K, refused: Refused) -> Self
        ensures { (result.keep ≡ keep) × (result.refused ≡ refused) }
    {
        Refusing {
            keep,
            refused,
            reads: 0,
        }
    }

    // Counts the call, and says whether it is refused.
    fn refuses(&mut self, call: Call) -> bool
        ensures { self.new.keep ≡ self.old.keep }
    {
        let refused = self.refused;
        self.refused = refused.after(call);
        self.reads = self.reads.saturating_add(u64::from(call == Call::Read));
        refused.is_next(call)
    }
}

// Memory, or Closed of a closed keep: whether it is closed is seen only by asking it.
fn refusal<T>(requested: Result<Vec<OwnerRow>, KeepFault>) -> Result<T, KeepFault>
    ensures memory { OnOk requested (result ≡ Err KeepFault.Memory) }
    ensures fault { IfErr requested (λ fault. result ≡ Err fault) }
{
    match requested {
        Ok(_) => Err(KeepFault::Memory),
        Err(fault) => Err(fault),
    }
}

impl<K: Keep> Keep for Refusing<K> {
    ghost meaning = { meaning_of (λ r. r.keep) K.meaning };

    ghost part = { λ os. record {
      holds = λ r c. (K.part os).holds r.keep c;
      leaves = λ r cs. (K.part os).leaves r.keep cs;
    } };

    fn slice(&mut self, alloc: Global, owner: &Name) -> Result<Option<Slice>, KeepFault> {
        if self.refuses(Call::Read) {
            return refusal(self.keep.owners(alloc));
        }
        self.keep.slice(alloc, owner)
    }

    fn owners(&mut self, alloc: Global) -> Result<Vec<OwnerRow>, KeepFault> {
        if self.refuses(Call::Read) {
            return refusal(self.keep.owners(alloc));
        }
        self.keep.owners(alloc)
    }

    fn units(&mut self, alloc: Global) -> Result<Vec<UnitRow>, KeepFault> {
        if self.refuses(Call::Read) {
            return refusal(self.keep.owners(alloc));
        }
        self.keep.units(alloc)
    }

    fn holder(&mut self, alloc: Global, unit: &Name) -> Result<Option<Holder>, KeepFault> {
        if self.refuses(Call::Read) {
            return refusal(self.keep.owners(alloc));
        }
        self.keep.holder(alloc, unit)
    }

    fn edges(&mut self, alloc: Global, owner: &Name) -> Result<Vec<Edge>, KeepFault> {
        if self.refuses(Call::Read) {
            return refusal(self.keep.owners(alloc));
        }
        self.keep.edges(alloc, owner)
    }

    fn all_edges(&mut self, alloc: Global) -> Result<Vec<Edge>, KeepFault> {
        if self.refuses(Call::Read) {
            return refusal(self.keep.owners(alloc));
        }
        self.keep.all_edges(alloc)
    }

    fn trace(
        &mut self,
        alloc: Global,
        owners: &[Name],
        from: &LotId,
        way: Way,
    ) -> Result<Vec<Step>, KeepFault> {
        if self.refuses(Call::Read) {
            return refusal(self.keep.owners(alloc));
        }
        self.keep.trace(alloc, owners, from, way)
    }

    fn apply(&mut self, alloc: Global, changes: &[Change]) -> Result<(), KeepFault> {
        if self.refuses(Call::Apply) {
            return refusal(self.keep.owners(alloc));
        }
        self.keep.apply(alloc, changes)
    }

    ghost settled = { λ r c honest live held. K.settled r.keep c honest live held };

    ghost lives_once = { λ r. K.lives_once r.keep };

    ghost widened = { λ r cs more left. K.widened r.keep cs more left };

    ghost narrows = { λ os r c held. K.narrows os r.keep c held };

    ghost settled_for = { λ os r c honest live held. K.settled_for os r.keep c honest live held };

    ghost widened_for = { λ os r cs more left. K.widened_for os r.keep cs more left };
}
