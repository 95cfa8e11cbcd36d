//! What the plant's words ask for. The server of the office does it, or else the program itself.
ghost use Rattle.std.specs.Prelude.{map, option_map};
ghost use Rattle.toll_programs.specs.Outputs.{printout_of};
ghost use Rattle.toll_programs.specs.ServerCalls.{connections_of};
ghost use Rattle.toll_programs.specs.StreamOutput.{streams_of};
ghost use Rattle.toll_service.specs.Doing.{AreWordsOver, IsDoneByServerOrHere, IsFileOver, IsOperationDone};

use crate::doing::with_keep;
use crate::office_path::{KeepOpener, OfficePath};
use crate::operation::Operation;
use toll_keep::{Keep, KeepFault};
use toll_plant::{WordsFault, command_of};
use toll_programs::{Connector, Output, Status, TracksReads, print, report, try_server};
use toll_protocol::{Response, Sink};

/// Does what these words of the plant ask for, and gives the exit status. If the office has a server, the
/// server does it. Otherwise it is done over the office, as [`plant_line`](toll_programs::plant_line) does
/// it, and printed after the lock of its file is released. If the words are no command, the usage is written
/// to `error`, and the status is 2. If no office was opened, or there was no memory to read the words, the
/// fault is written to `error`, and the status is 3.
pub fn do_words<
    K: Keep,
    O: KeepOpener<K>,
    S: TracksReads + Drop,
    C: Connector<S>,
    W: Sink,
    E: Sink,
>(
    office_path: &mut OfficePath<'_, O>,
    connector: &mut C,
    words: &[&str],
    output: &mut W,
    error: &mut E,
) -> u64
    ensures { AreWordsOver K.meaning O.is_opened (O.openings office_path.old.opener) (O.openings office_path.new.opener)
        (connections_of C.is_new S.Source S.Sink C.tries connector.old connector.new) (map (λ w. w.now) words.now)
        (streams_of W.Sink E.Sink output.old output.new error.old error.new) result }
{
    match command_of(office_path.rt.alloc(), words) {
        Ok(command) => {
            let operation = Operation::Command(&command);
            serve_or_do(
                office_path,
                connector,
                words,
                None,
                operation,
                output,
                error,
            )
        }
        Err(WordsFault::Usage(usage)) => report(error, &usage, Status::Usage),
        Err(WordsFault::Memory) => Output::fault(KeepFault::Memory).print(output, error),
    }
}

/// Imports a file of actuals, and gives the exit status. If the office has a server, the server does it.
/// Otherwise it is done over the office, as [`plant_import`](toll_programs::plant_import) does it, and
/// printed after the lock of its file is released. If no office was opened, the fault is written to `error`,
/// and the status is 3.
pub fn do_file<K: Keep, O: KeepOpener<K>, S: TracksReads + Drop, C: Connector<S>, W: Sink, E: Sink>(
    office_path: &mut OfficePath<'_, O>,
    connector: &mut C,
    actuals: &[u8],
    output: &mut W,
    error: &mut E,
) -> u64
    ensures { IsFileOver K.meaning O.is_opened (O.openings office_path.old.opener) (O.openings office_path.new.opener)
        (connections_of C.is_new S.Source S.Sink C.tries connector.old connector.new) actuals.now
        (streams_of W.Sink E.Sink output.old output.new error.old error.new) result }
{
    let operation = Operation::Import(actuals);
    serve_or_do(
        office_path,
        connector,
        &["import"],
        Some(actuals),
        operation,
        output,
        error,
    )
}

// Has the server do what these words and the file with them ask for, or does it over a keep.
fn serve_or_do<K: Keep, O: KeepOpener<K>, S: TracksReads + Drop, C: Connector<S>, W: Sink, E: Sink>(
    office_path: &mut OfficePath<'_, O>,
    connector: &mut C,
    words: &[&str],
    file: Option<&[u8]>,
    operation: Operation<'_>,
    output: &mut W,
    error: &mut E,
) -> u64
    ensures { IsDoneByServerOrHere O.is_opened (O.openings office_path.old.opener) (O.openings office_path.new.opener)
        (connections_of C.is_new S.Source S.Sink C.tries connector.old connector.new) (map (λ w. w.now) words.now) (option_map (λ f. f.now) file.entry)
        (IsOperationDone K.meaning operation.entry) (streams_of W.Sink E.Sink output.old output.new error.old error.new) result }
{
    if let Some(status) = try_server(
        office_path.rt,
        office_path.path,
        connector,
        words,
        file,
        output,
        error,
    ) {
        return status;
    }
    let alloc = office_path.rt.alloc();
    let run = |keep: &mut K|
        ensures { IsOperationDone K.meaning operation.entry keep.old keep.new (printout_of result) }
    { operation.run(alloc, keep) };
    match with_keep(office_path, run) {
        Ok(done) => done.print(output, error),
        Err(fault) => {
            let refused = Response {
                status: Status::Failed.code(),
                output: b"",
                error: fault.line(),
            };
            print(&refused, output, error)
        }
    }
}
