//! An import that the plant asked a server for.
ghost use Rattle.std.specs.Prelude.{◌≡◌, IfSome, is_none};
ghost use Rattle.toll_files.specs.Faults.{fault_text};
ghost use Rattle.toll_service.specs.Listeners.{ImportResumed, IsImportAborted, IsImportFault, IsReadyWith};

use crate::reserved_reply::ReservedReply;
use crate::turn_result::TurnResult;
use std::alloc::Global;
use std::marker::Model;
use toll_files::OfficeFault;
use toll_keep::Keep;
use toll_plant::Import;
use toll_programs::{output_of_import, output_of_stopped_import};
use toll_server::Poll;

/// An import that is under way, and memory for the exit status that the plant gets at the end.
#[derive(Drop)]
pub struct PendingImport {
    import: Import,
    reserved: ReservedReply,
}

/// The import.
impl Model for PendingImport {
    ghost use Rattle.toll_plant.specs.ImportStates.{ImportState};

    ghost Value = { ImportState };

    ghost view = { λ i. i.import };
}

impl PendingImport {
    /// This import, of which no record has acted yet.
    pub(crate) fn new(import: Import, reserved: ReservedReply) -> Self
        ensures { result ≡ import }
    {
        PendingImport { import, reserved }
    }

    /// Resumes the import over a keep: the next group of its records acts. If no record is left then, the
    /// reply to the plant is the program's output for all of them, and the exit status.
    pub fn resume<K: Keep>(mut self, alloc: Global, keep: &mut K) -> TurnResult
        ensures resumed { ImportResumed K.meaning keep.old keep.new self result.poll (is_none result.fault) }
        ensures met { IfSome result.fault (IsImportFault K.meaning keep.old keep.new self) }
    {
        self.import.resume(alloc, keep);
        if self.import.is_over() {
            let done = output_of_import(alloc, Ok(self.import.into_report()));
            self.reserved.write(alloc, &done)
        } else {
            TurnResult {
                poll: Poll::Pending(self),
                fault: None,
            }
        }
    }

    /// Ends an import that can't be resumed because of such a fault. The reply to the plant is the outcomes
    /// of the records so far, the line of the fault on standard error, and the exit status of a failure.
    /// Output for which there is no memory is left out.
    pub fn abort(self, alloc: Global, fault: OfficeFault) -> TurnResult
        ensures { IsReadyWith result.poll (λ reported. IsImportAborted self.lines (fault_text fault) reported (is_none result.fault)) }
    {
        let report = self.import.into_report();
        let done = output_of_stopped_import(alloc, &report, fault.line());
        self.reserved.write(alloc, &done)
    }
}
