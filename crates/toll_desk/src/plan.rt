//! Plans of requests and commands.
ghost use Rattle.std.specs.Prelude.{◌≡◌, []};

use std::alloc::Global;
use toll_base::Change;

/// The reply if its changes succeed, and these changes.
#[derive(Drop)]
pub struct Plan<R> {
    pub reply: R,
    pub changes: Vec<Change>,
}

impl<R> Plan<R> {
    /// A reply that changes nothing.
    pub fn unchanged(alloc: Global, reply: R) -> Self
        ensures reply { result.reply ≡ reply }
        ensures changes { result.changes.items ≡ [] }
    {
        Plan {
            reply,
            changes: Vec::new(alloc),
        }
    }
}
