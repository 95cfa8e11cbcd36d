//! Scripts. The keep stays inside these functions, so that callers own none.
ghost use Rattle.toll_opener.specs.Scripts.{IsScriptDone};

use sqlite::MemStore;
use std::alloc::Global;
use std::io;
use toll_keep::{CachedKeep, Keep};
use toll_programs::{ScriptEnd, report_end, script};
use toll_protocol::{Sink, Source};
use toll_sql::SqlKeep;

/// The keep of an office in memory.
type MemoryKeep = CachedKeep<SqlKeep<MemStore>>;

/// Runs a script over an office that is empty at first and kept in memory. The end is also `Memory` if there
/// is no memory for the office.
pub fn do_script<R: Source, W: Sink>(alloc: Global, reader: &mut R, writer: &mut W) -> ScriptEnd
    ensures { IsScriptDone ⟦<MemoryKeep as Keep>⟧ R.Source W.Sink reader.old reader.new writer.old writer.new result }
{
    match SqlKeep::in_memory(alloc) {
        Ok(keep) => script(alloc, reader, writer, &mut CachedKeep::new(alloc, keep)),
        Err(_) => ScriptEnd::Memory,
    }
}

/// Runs the script on standard input, as [`do_script`] does, writes to standard output, and gives the exit
/// status.
pub fn run_script(rt: &HostRuntime) -> u64 {
    let end = do_script(rt.alloc(), &mut rt.reader(), &mut io::writer(rt));
    report_end(end, &mut rt.stderr())
}
