//! An import that can't go on.
ghost use Rattle.toll_service.specs.Listeners.{IsReadyWith};
ghost use Rattle.toll_service.specs.Sessions.{IsGivenUp};

use crate::pending_import::PendingImport;
use std::alloc::Global;
use toll_files::OfficeFault;
use toll_server::Poll;

/// An import that can't go on, since the office was closed and can't be opened.
#[derive(Drop)]
pub struct StoppedImport {
    /// Why the office can't be opened.
    pub fault: OfficeFault,
    /// The import, with the outcomes of its records so far.
    pub import: PendingImport,
}

impl StoppedImport {
    /// The reply to the plant: the outcomes of the records so far, and the line of the fault.
    pub fn give_up(self, alloc: Global) -> Poll<PendingImport>
        ensures { IsReadyWith result (IsGivenUp self.fault self.import) }
    {
        self.import.abort(alloc, self.fault).poll
    }
}
