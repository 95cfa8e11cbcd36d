//! Sending a call to a server.
ghost use Rattle.std.specs.Prelude.{◌≡◌, IsNone, IsTrue, map, option_map};
ghost use Rattle.toll_protocol.specs.PlantMessages.{call_text};
ghost use Rattle.toll_protocol.specs.Frames.{frame};
ghost use Rattle.toll_programs.specs.StreamOutput.{IsWarned, stream_of, streams_of};
ghost use Rattle.toll_programs.specs.declared.status.Status.{Status};
ghost use Rattle.toll_programs.specs.ServerCalls.{CanBeOutcome, HasHandshake, IsResponseText, IsExchange, IsRunOnServer, IsWrittenOf, lost_line};

use crate::reporting::{print, warn};
use crate::status::Status;
use crate::tracked_stream::TracksReads;
use crate::version::VERSION;
use std::alloc::Global;
use toll_protocol::{
    Call, Frame, MOST_HANDSHAKE_BYTES, MOST_RESPONSE_BYTES, ReadStatus, Response, Sink,
    is_handshake, write_whole,
};

/// The outcome of a call to a server.
#[derive(Drop)]
pub enum CallOutcome {
    /// No server of this build took the whole call: nothing was done.
    NotTaken,
    /// The server took the whole call and no response came: a read failed, or the bytes are no response and
    /// no more will come. The call is done whole or not at all.
    Lost,
    /// The server took the whole call, and there was no memory for its response.
    NoMemory,
    /// The server sent this response, a frame that [`Response::read`] reads.
    Answered(Vec<u8>),
}

/// Sends words, and the file that they name, to the server of a connection, if its handshake is that of this
/// build. Writes its response, and gives the exit status: that of the response, or 3 if its output can't be
/// written. If no response came, or there was no memory for it, `fault Lost` is written to `error`, and the
/// status is 3. `None` if the server did not take the whole call: nothing was done or written.
pub fn run_on_server<S: TracksReads, W: Sink, E: Sink>(
    alloc: Global,
    stream: &mut S,
    words: &[&str],
    file: Option<&[u8]>,
    output: &mut W,
    error: &mut E,
) -> Option<u64>
    ensures handed { let call = frame (call_text (map (λ w. w.now) words.now) (option_map (λ f. f.now) file.entry)) in
        let streams = streams_of W.Sink E.Sink output.old output.new error.old error.new in
        IsRunOnServer S.Source S.Sink VERSION.now call stream.old stream.new streams result }
    ensures untold { IsNone result → (output.new ≡ output.old) × (error.new ≡ error.old) }
{
    let Ok(call) = Call::encode(alloc, words, file) else {
        return None;
    };
    match exchange(alloc, stream, VERSION, &call) {
        CallOutcome::NotTaken => None,
        CallOutcome::Lost | CallOutcome::NoMemory => Some(write_lost(error)),
        CallOutcome::Answered(text) => Some(write_response(&text, output, error)),
    }
}

// Writes a server's response.
fn write_response<W: Sink, E: Sink>(text: &[u8], output: &mut W, error: &mut E) -> u64
    requires { IsResponseText text.now }
    ensures { IsWrittenOf (streams_of W.Sink E.Sink output.old output.new error.old error.new) text.now result }
{
    match Response::read(text) {
        Some(reported) => print(&reported, output, error),
        None => write_lost(error),
    }
}

// Writes that no response came.
fn write_lost<E: Sink>(error: &mut E) -> u64
    ensures { IsWarned (stream_of E.Sink error.old error.new) lost_line Status.Failed result }
{
    warn(error, b"fault Lost\n", Status::Failed)
}

// Sends a call to a server whose handshake is that of this build, and takes its response.
fn exchange<S: TracksReads>(
    alloc: Global,
    stream: &mut S,
    version: &str,
    call: &[u8],
) -> CallOutcome
    ensures { IsExchange S.Source S.Sink version.now call.now stream.old stream.new result }
{
    if !has_handshake(alloc, stream, version) {
        return CallOutcome::NotTaken;
    }
    match write_whole(stream, call) {
        Ok(()) => read_response(alloc, stream),
        Err(_) => CallOutcome::NotTaken,
    }
}

// Reads the server's handshake, and returns whether it is that of this version.
fn has_handshake<S: TracksReads>(alloc: Global, stream: &mut S, version: &str) -> bool
    ensures greeted { IsTrue result → HasHandshake version.now (S.Source.unread stream.old) }
    ensures unsent { S.Sink.held stream.new ≡ S.Sink.held stream.old }
{
    let mut frame = Frame::new(alloc);
    match frame.read_on(stream, MOST_HANDSHAKE_BYTES) {
        ReadStatus::Complete => is_handshake(&frame.bytes, version),
        ReadStatus::Waiting | ReadStatus::Failed => false,
    }
}

// The response of a server that was sent the whole call.
fn read_response<S: TracksReads>(alloc: Global, stream: &mut S) -> CallOutcome
    ensures reported { CanBeOutcome S.Source stream.old stream.new result }
    ensures unsent { S.Sink.held stream.new ≡ S.Sink.held stream.old }
{
    let mut frame = Frame::new(alloc);
    match frame.read_on(stream, MOST_RESPONSE_BYTES) {
        ReadStatus::Complete if Response::read(&frame.bytes).is_some() => CallOutcome::Answered(
            frame.bytes,
        ),
        ReadStatus::Complete => CallOutcome::Lost,
        ReadStatus::Waiting | ReadStatus::Failed if stream.has_failed() => CallOutcome::Lost,
        ReadStatus::Waiting | ReadStatus::Failed => CallOutcome::NoMemory,
    }
}
