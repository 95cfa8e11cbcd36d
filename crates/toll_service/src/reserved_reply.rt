//! A reply that is reserved before anything is done.
ghost use Rattle.std.specs.Prelude.{[]};
ghost use Rattle.toll_protocol.specs.PlantMessages.{IsResponse};

use crate::turn_result::TurnResult;
use std::alloc::{AllocError, Global};
use toll_keep::KeepFault;
use toll_programs::{Output, Status};
use toll_protocol::Response;
use toll_server::Poll;

/// The place of the exit status in a frame: after its length.
const STATUS_PLACE: usize = 4;

/// A frame with an exit status and no output, in which the status can be replaced without memory.
#[derive(Drop)]
pub struct ReservedReply {
    frame: Vec<u8>,
    ghost is_reply: { IsResponse frame.items 0 [] [] },
}

impl ReservedReply {
    ghost use Rattle.std.specs.Prelude.{◌≡◌, ◌⊎◌, IfSome, Some, is_none};
    ghost use Rattle.toll_programs.specs.Outputs.{printout_of};
    ghost use Rattle.toll_service.specs.Listeners.{IsReadyWith, IsFailureResponse, IsFrameResponse, IsFrameResponseIfRoom};
    ghost use Rattle.toll_service.specs.Unwritten.{status_alone, status_unwritten};

    /// Takes memory for a reply without output. An `Err` if there is none.
    pub fn new(alloc: Global) -> Result<Self, AllocError> {
        let done = Response {
            status: Status::Done.code(),
            output: b"",
            error: b"",
        };
        match done.encode(alloc) {
            Ok(frame) => Ok(ReservedReply { frame }),
            Err(_) => Err(AllocError),
        }
    }

    /// The reply to the plant, and the fault of the output. If there is no memory for all of the output, the
    /// reply is the exit status alone, as of a program that can write nothing, and the fault of a failure is
    /// Memory.
    pub fn write(self, alloc: Global, done: &Output) -> TurnResult
        ensures frame { IsReadyWith result.poll (IsFrameResponseIfRoom (is_none result.fault) (printout_of done.now)) }
        ensures met { IfSome result.fault (λ fault. (fault ≡ KeepFault.Memory)
            ⊎ ((done.now.fault ≡ Some fault) × IsReadyWith result.poll (λ reported. IsFailureResponse (printout_of done.now) reported))) }
    {
        match done.as_response().encode(alloc) {
            Ok(frame) => TurnResult {
                poll: Poll::Ready(frame),
                fault: done.fault,
            },
            Err(_) => self.write_status(ReservedReply::code_unwritten(done)),
        }
    }

    // The reply with this exit status and no output.
    fn write_status(self, status: u8) -> TurnResult
        ensures frame { IsReadyWith result.poll (IsFrameResponse (is_none result.fault) (status_alone status)) }
        ensures met { IfSome result.fault (λ fault. fault ≡ KeepFault.Memory) }
    {
        let ReservedReply { mut frame } = self;
        frame[STATUS_PLACE] = status;
        TurnResult {
            poll: Poll::Ready(frame),
            fault: (status == Status::Failed.code()).then_some(KeepFault::Memory),
        }
    }

    // The exit status if nothing can be written: a failure, if there is text for standard output.
    fn code_unwritten(done: &Output) -> u8
        ensures { let p = printout_of done.now in result ≡ status_unwritten p.output p.status }
    {
        if done.stdout.as_slice().is_empty() {
            done.status.code()
        } else {
            Status::Failed.code()
        }
    }
}
