//! Connecting to the server of an office.
ghost use Rattle.std.specs.Prelude.{◌≡◌, ⊤, Bool, IfSome, IsNone, List, None, Option, is_some, map, option_map};
ghost use Rattle.toll_programs.specs.ServerCalls.{IsServerAsked, after_try, connections_of};
ghost use Rattle.toll_programs.specs.StreamOutput.{streams_of};
ghost use Rattle.toll_protocol.specs.Frames.{frame};
ghost use Rattle.toll_protocol.specs.PlantMessages.{call_text};

use crate::calling::run_on_server;
use crate::tracked_stream::TracksReads;
use toll_protocol::Sink;

/// Connects to the server of the office in a file.
pub trait Connector<S> {
    // Nothing was sent over the connection yet.
    ghost is_new: { S → Type 0 } = { λ _. ⊤ };

    // Whether each try so far gave a connection, if that is known.
    ghost tries: { Self → Option (List Bool) } = { λ _. None };

    /// A connection to the server of the office at this path. `None` if it has no server that can be connected to.
    fn connect(&mut self, rt: &HostRuntime, path: &str) -> Option<S>
        ensures is { IfSome result is_new }
        ensures tried { tries self.new ≡ option_map (after_try (is_some result)) (tries self.old) };
}

/// Sends a call to the server of an office, waits for its response as long as it takes, writes the response,
/// and gives the exit status, as [`run_on_server`] does. `None` if no server of this build took the whole
/// call: nothing was done or written.
pub fn try_server<S: TracksReads + Drop, C: Connector<S>, W: Sink, E: Sink>(
    rt: &HostRuntime,
    path: &str,
    connector: &mut C,
    words: &[&str],
    file: Option<&[u8]>,
    output: &mut W,
    error: &mut E,
) -> Option<u64>
    ensures asked { let call = frame (call_text (map (λ w. w.now) words.now) (option_map (λ f. f.now) file.entry)) in
        IsServerAsked (connections_of C.is_new S.Source S.Sink C.tries connector.old connector.new) call
        (streams_of W.Sink E.Sink output.old output.new error.old error.new) result }
    ensures untold { IsNone result → (output.new ≡ output.old) × (error.new ≡ error.old) }
{
    let mut stream = connector.connect(rt, path)?;
    run_on_server(rt.alloc(), &mut stream, words, file, output, error)
}
