//! The result of a turn.
use crate::pending_import::PendingImport;
use toll_keep::KeepFault;
use toll_server::Poll;

/// The reply to a client, or the import that is left to do before it, and the fault because of which the reply
/// is a 503 or an exit status of 3.
#[derive(Drop)]
pub struct TurnResult {
    /// The bytes of an HTTP reply, or a frame with the reply to the plant. No bytes for bytes that ask the
    /// plant's listener for nothing.
    pub poll: Poll<PendingImport>,
    /// A fault that a call of the keep met, or Memory. After any fault a server that keeps the file open opens
    /// it anew.
    pub fault: Option<KeepFault>,
}
