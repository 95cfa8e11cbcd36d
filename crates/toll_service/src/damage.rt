//! What a server knows of damage in its office's file.
ghost use Rattle.std.specs.Global.{Vec as Held};
ghost use Rattle.std.specs.List.{list_any};
ghost use Rattle.std.specs.Prelude.{◌≡◌, ◌⊎◌, ℕ, true, Contains};
ghost use Rattle.toll_base.specs.Bytes.{Bytes};
ghost use Rattle.toll_server.specs.RequestBuffers.{bytes_received, listener_of};
ghost use Rattle.toll_service.specs.Damages.{IsKnown, KnowsNothing, is_call, is_owner};

use crate::party::Party;
use std::alloc::Global;
use toll_base::Name;
use toll_server::RequestBuffer;

/// How many owners are remembered, and how many calls.
const MOST_REMEMBERED: usize = 100;

/// The length limit in bytes of a call that is remembered.
const MOST_REMEMBERED_BYTES: usize = 4096;

/// What is known of damage in a file since another program last wrote it. A client that met damage gets its
/// reply from this, without another look at the file.
#[derive(Drop)]
pub struct Damage {
    /// Owners whose rows are damaged.
    pub owners: Vec<Name>,
    /// Calls of the plant that met damage.
    pub calls: Vec<Vec<u8>>,
}

impl Damage {
    /// Nothing is known, which takes no memory.
    pub fn new(alloc: Global) -> Self
        ensures { KnowsNothing result }
    {
        Damage {
            owners: Vec::new(alloc),
            calls: Vec::new(alloc),
        }
    }

    /// Forgets all that was known.
    pub fn forget(&mut self)
        ensures { KnowsNothing self.new }
    {
        self.owners.clear();
        self.calls.clear();
    }

    /// Whether a request or call is known to meet damage: a request of an owner whose rows are damaged, or a call
    /// that met damage.
    pub fn is_known(&self, request: &RequestBuffer) -> bool
        ensures { result ≡ true → IsKnown self.now (listener_of request.now) (bytes_received request.now) }
    {
        match request {
            RequestBuffer::Owner(_) if self.owners.is_empty() => false,
            RequestBuffer::Owner(_) => match Party::of(request) {
                Party::Owner(owner) => has(&self.owners, &owner),
                Party::Plant | Party::Nobody => false,
            },
            RequestBuffer::Plant(frame) => self.has_call(&frame.bytes),
        }
    }

    fn has_call(&self, bytes: &[u8]) -> bool
        ensures { result ≡ list_any (is_call bytes.now) self.now.calls.items }
    {
        self.calls.iter().any(|call| call.as_slice() == bytes)
    }

    /// Notes an owner whose rows are damaged, if there is room.
    pub fn note_owner(&mut self, owner: Name)
        ensures owners { (o : Bytes) → Contains self.new.owners.items o → Contains self.old.owners.items o ⊎ (o ≡ owner) }
        ensures calls { self.new.calls ≡ self.old.calls }
    {
        if self.owners.len() < MOST_REMEMBERED {
            let _ = self.owners.push(owner);
        }
    }

    /// Notes a call that met damage, if it is short and there is room.
    pub fn note_call(&mut self, alloc: Global, bytes: &[u8])
        ensures owners { self.new.owners ≡ self.old.owners }
        ensures calls { (c : Held ℕ) → Contains self.new.calls.items c → Contains self.old.calls.items c ⊎ (c.items ≡ bytes.now) }
    {
        if self.calls.len() >= MOST_REMEMBERED || bytes.len() > MOST_REMEMBERED_BYTES {
            return;
        }
        if let Ok(call) = Vec::from_slice(alloc, bytes) {
            let _ = self.calls.push(call);
        }
    }
}

// Whether the owner is one of these.
fn has(owners: &[Name], owner: &Name) -> bool
    ensures { result ≡ list_any (is_owner owner.now) owners.now }
{
    owners.iter().any(|name| *name == *owner)
}
