//! What the plant asks of a server.
ghost use Rattle.std.specs.Prelude.{◌≡◌, map, IfNone, IfOk, IfSome, OnErr, is_none};
ghost use Rattle.toll_programs.specs.Outputs.{on_error, printout_of};
ghost use Rattle.toll_programs.specs.Printing.{fault_line};
ghost use Rattle.toll_programs.specs.declared.status.Status.TheVariants.{Failed};
ghost use Rattle.toll_server.specs.declared.listener.Listener.{Listener};
ghost use Rattle.toll_service.specs.Listeners.{BeginsOrRefuses, IsRequestedDone, IsInputServed, IsTurnFault};
ghost use Rattle.toll_service.specs.Requested.{ImportFile, is_import, requested_by_words, requested_in};

use crate::pending_import::PendingImport;
use crate::reserved_reply::ReservedReply;
use crate::turn_result::TurnResult;
use std::alloc::{AllocError, Global};
use std::borrow::CowSlice;
use toll_keep::{Keep, KeepFault};
use toll_plant::{Import, WordsFault, command_of};
use toll_programs::{Output, execute, output_of_import};
use toll_protocol::Call;
use toll_server::Poll;

/// Answers a frame, or begins the import that it asks for. Memory for an exit status is taken before anything
/// is done. An `Err` means that there was no memory: nothing was done.
pub fn answer_plant<K: Keep>(
    alloc: Global,
    keep: &mut K,
    bytes: &[u8],
) -> Result<TurnResult, AllocError>
    ensures err { OnErr result (keep.new ≡ keep.old) }
    ensures served { IfOk result (λ reply. IsInputServed K.meaning keep.old keep.new Listener.Plant bytes.now reply.poll (is_none reply.fault)) }
    ensures met { IfOk result (λ reply. IfSome reply.fault (IsTurnFault K.meaning keep.old keep.new Listener.Plant reply.poll)) }
{
    let Some(call) = Call::read(alloc, bytes)? else {
        return Ok(TurnResult {
            poll: Poll::Ready(Vec::new(alloc)),
            fault: None,
        });
    };
    let reserved = ReservedReply::new(alloc)?;
    match import_in(&call) {
        Some(file) => Ok(begin(alloc, file, reserved)),
        None => {
            let done = execute_words(alloc, keep, &call.words)?;
            Ok(reserved.write(alloc, &done))
        }
    }
}

// The file whose import is asked for.
fn import_in<'a>(call: &Call<'a>) -> Option<&'a [u8]>
    ensures some { IfSome result (λ file. requested_in call.now ≡ ImportFile file.now) }
    ensures none { IfNone result (requested_in call.now ≡ requested_by_words (map (λ w. w.now) call.now.words.items)) }
{
    match call.file {
        Some(file) if is_import(&call.words) => Some(file),
        _ => None,
    }
}

// Begins an import, or replies why there is none.
fn begin(alloc: Global, file: &[u8], reserved: ReservedReply) -> TurnResult
    ensures begins { BeginsOrRefuses file.now result.poll (is_none result.fault) }
    ensures met { IfSome result.fault (λ fault. fault ≡ KeepFault.Memory) }
{
    match Import::of(alloc, file) {
        Ok(import) => TurnResult {
            poll: Poll::Pending(PendingImport::new(import, reserved)),
            fault: None,
        },
        Err(fault) => {
            let done = output_of_import(alloc, Err(fault));
            reserved.write(alloc, &done)
        }
    }
}

// Does what words ask for, except an import, once they are read.
fn execute_words<K: Keep>(alloc: Global, keep: &mut K, words: &[&str]) -> Result<Output, AllocError>
    ensures err { OnErr result (keep.new ≡ keep.old) }
    ensures done { IfOk result (λ done. IsRequestedDone K.meaning keep.old keep.new (requested_by_words (map (λ w. w.now) words.now)) (printout_of done)) }
    ensures fault { IfOk result (λ done. IfSome done.fault (λ fault. printout_of done ≡ on_error Failed (fault_line fault))) }
{
    match command_of(alloc, words) {
        Ok(command) => Ok(execute(alloc, keep, &command)),
        Err(WordsFault::Usage(usage)) => Ok(Output::usage(CowSlice::Owned(usage))),
        Err(WordsFault::Memory) => Err(AllocError),
    }
}

// Whether the first word is `import`.
fn is_import(words: &[&str]) -> bool
    ensures { result ≡ is_import (map (λ w. w.now) words.now) }
{
    match words {
        [first, ..] => *first == "import",
        [] => false,
    }
}
