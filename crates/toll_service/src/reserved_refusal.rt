//! A refusal that is reserved before anything is done.
ghost use Rattle.std.specs.Prelude.{◌≡◌, ◌≤◌, [], length, vec_capacity, vec_len};
ghost use Rattle.toll_files.specs.Faults.{fault_text};
ghost use Rattle.toll_programs.specs.Statuses.{exit_code};
ghost use Rattle.toll_programs.specs.declared.status.Status.TheVariants.{Failed};
ghost use Rattle.toll_protocol.specs.PlantMessages.{IsResponse};
ghost use Rattle.toll_server.specs.RequestBuffers.{listener_of};
ghost use Rattle.toll_service.specs.declared.reserved_refusal.TheConstants.{MOST_REFUSAL_BYTES};

use std::alloc::{AllocError, Global};
use toll_files::OfficeFault;
use toll_server::RequestBuffer;
use toll_wire::Out;

/// How many bytes a refusal has at most.
const MOST_REFUSAL_BYTES: usize = 160;

/// Memory for the reply to a client if no office is available. It is taken before anything is done, so a fault
/// that is met is always named.
#[derive(Drop)]
pub struct ReservedRefusal {
    bytes: Vec<u8>,
    ghost is_empty: { (bytes.items ≡ []) × (vec_len bytes ≡ 0) },
    ghost has_room: { MOST_REFUSAL_BYTES ≤ vec_capacity bytes },
}

impl ReservedRefusal {
    ghost use Rattle.toll_service.specs.Sessions.{IsRefusal};

    /// Takes memory for the longest refusal. An `Err` if there is none.
    pub fn new(alloc: Global) -> Result<Self, AllocError> {
        let bytes = Vec::with_capacity(alloc, MOST_REFUSAL_BYTES)?;
        Ok(ReservedRefusal { bytes })
    }

    /// The reply to a request that no office is available because of this fault. It takes no more memory.
    pub fn write(self, request: &RequestBuffer, fault: OfficeFault) -> Vec<u8>
        ensures { IsRefusal fault (listener_of request.now) result.items }
    {
        let ReservedRefusal { mut bytes } = self;
        let _ = match request {
            RequestBuffer::Owner(_) => bytes.extend_from_slice(Out::Unavailable.bytes()),
            RequestBuffer::Plant(_) => bytes.extend_from_slice(fault_response(fault)),
        };
        bytes
    }
}

/// The frame of the response to the plant that reports a fault: its line, and the exit status of a failure. It
/// takes no memory.
pub fn fault_response(fault: OfficeFault) -> &'static [u8]
    ensures reports { IsResponse result.now (exit_code Failed) [] (fault_text fault) }
    ensures short { length result.now ≤ 24 }
{
    match fault {
        OfficeFault::Locked => b"\0\0\0\x12\x03\0\0\0\0fault Locked\n",
        OfficeFault::Memory => b"\0\0\0\x12\x03\0\0\0\0fault Memory\n",
        OfficeFault::Disk => b"\0\0\0\x10\x03\0\0\0\0fault Disk\n",
        OfficeFault::Damaged => b"\0\0\0\x13\x03\0\0\0\0fault Damaged\n",
        OfficeFault::NotOurs => b"\0\0\0\x13\x03\0\0\0\0fault NotOurs\n",
    }
}
