//! Answering requests at the two listeners.
ghost use Rattle.std.specs.Prelude.{◌≡◌, IfOk, IfSome, OnErr, is_none};
ghost use Rattle.toll_server.specs.RequestBuffers.{bytes_received, listener_of};
ghost use Rattle.toll_service.specs.Listeners.{IsOwnerServed, IsReadyWith, IsInputServed, IsTurnFault};
ghost use Rattle.toll_wire.specs.Steps.{IsFaultMet};

use crate::plant::answer_plant;
use crate::turn_result::TurnResult;
use std::alloc::{AllocError, Global};
use toll_keep::Keep;
use toll_protocol::RequestReader;
use toll_server::{Poll, RequestBuffer};
use toll_wire::{OfficeRouter, Out, answer_with_router};

/// Answers a request that a client sent to a listener, over a keep.
///
/// At the owners' listener, its bytes are an HTTP request, and the reply is that of
/// [`answer`](toll_wire::answer), by the router. At the plant's listener, they are a frame as
/// [`Call`](toll_protocol::Call) packs it. The reply is a frame as [`Response`](toll_protocol::Response)
/// packs it: what the program itself would have printed, and its exit status. If the first word is `import`
/// and a file came with the words, the call is an import of that file. All other calls are a command or a
/// question. Bytes that are no frame, or a frame that was cut, do nothing and get no reply.
///
/// An import takes several turns. The first turn reads all records of its file, and leaves the import to be
/// resumed ([`PendingImport::resume`](crate::PendingImport)). If the file can't be imported, the reply comes at
/// once.
///
/// An `Err` means that there was no memory: nothing was done, and there is no reply. Memory for the shortest
/// reply is taken before anything is done. If there is none for all of the output, the plant gets the exit
/// status of a program that can't write.
pub fn answer_at<K: Keep>(
    alloc: Global,
    router: &mut OfficeRouter,
    keep: &mut K,
    request: &RequestBuffer,
) -> Result<TurnResult, AllocError>
    ensures err { OnErr result (keep.new ≡ keep.old) }
    ensures served { IfOk result (λ reply. IsInputServed K.meaning keep.old keep.new (listener_of request.now) (bytes_received request.now)
        reply.poll (is_none reply.fault)) }
    ensures met { IfOk result (λ reply. IfSome reply.fault (IsTurnFault K.meaning keep.old keep.new (listener_of request.now) reply.poll)) }
{
    match request {
        RequestBuffer::Owner(http) => answer_owner(alloc, router, keep, http),
        RequestBuffer::Plant(frame) => answer_plant(alloc, keep, &frame.bytes),
    }
}

// Answers a request. Memory for a 503 is taken before the keep is asked.
fn answer_owner<K: Keep>(
    alloc: Global,
    router: &mut OfficeRouter,
    keep: &mut K,
    http: &RequestReader,
) -> Result<TurnResult, AllocError>
    ensures err { OnErr result (keep.new ≡ keep.old) }
    ensures served { IfOk result (λ reply. IsReadyWith reply.poll
        (λ reported. IsOwnerServed K.meaning keep.old keep.new http.now reported (is_none reply.fault))) }
    ensures met { IfOk result (λ reply. IfSome reply.fault (IsFaultMet K.meaning keep.old keep.new)) }
{
    let unavailable = Vec::from_slice(alloc, Out::Unavailable.bytes())?;
    match answer_with_router(alloc, router, keep, http.parsed()) {
        Ok(text) => Ok(TurnResult {
            poll: Poll::Ready(text),
            fault: None,
        }),
        Err(fault) => Ok(TurnResult {
            poll: Poll::Ready(unavailable),
            fault: Some(fault),
        }),
    }
}
