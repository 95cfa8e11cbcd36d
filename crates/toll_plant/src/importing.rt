//! Importing files of actuals.
ghost use Rattle.std.specs.Prelude.{◌≡◌, IfOk, OnErr};
ghost use Rattle.toll_keep.specs.Meaning.{NeverCloses};
ghost use Rattle.toll_desk.specs.Reads.{Over};
ghost use Rattle.toll_plant.specs.ImportFaults.{IsImportedOrRefused};
ghost use Rattle.toll_plant.specs.Imports.{AllOutcomesAre, AreNumberedFrom, AreRecordsServed, AreStepsOf, IsImportOf, IsOpenOutcome, IsWholeOutcome, OfRecords};

use crate::import::Import;
use crate::import_fault::ImportFault;
use crate::report::ImportReport;
use std::alloc::Global;
use toll_keep::Keep;

/// How many bytes a file of actuals has at most.
pub const MOST_FILE_BYTES: usize = 1_048_576;

/// Imports a file of actuals, as `csv` reads it: the header, and under it a record for each actual.
///
/// All records are read before the first acts. Then each does the plant's command for an actual with its
/// fields as values, one after another. A record that hasn't twelve fields gives no command, and doesn't use
/// the keep. After the first fault, whose line is the last one, no record acts.
///
/// The records act in groups of [`GROUP_RECORDS`](crate::GROUP_RECORDS), as
/// [`import_group`](crate::import_group) says: one call makes all changes of a group in the keep. If that is
/// refused, the first record of the group that would have changed something has the fault, and only the
/// changes of the groups before are kept.
///
/// A record whose key is known doesn't act again. So a file whose records were all accepted or repeated
/// changes nothing when it is imported again.
///
/// A file of more than 1,048,576 bytes is [`ImportFault::TooLong`]. Any other whose first record isn't the
/// header, or that has no record, is [`ImportFault::BadHeader`], if there is the memory to read it. After an
/// `Err` nothing acted.
pub fn import_actuals<K: Keep>(
    alloc: Global,
    keep: &mut K,
    file: &[u8],
) -> Result<ImportReport, ImportFault>
    ensures read { IsImportedOrRefused file.now result }
    ensures err { OnErr result (keep.new ≡ keep.old) }
    ensures honest { K.meaning.is_honest keep.new → K.meaning.is_honest keep.old }
    ensures numbered { IfOk result (λ report. AreNumberedFrom 1 report.lines.items) }
    ensures served { IfOk result (OfRecords file.now (λ commands outcomes. AreRecordsServed K.meaning keep.old commands outcomes keep.new)) }
    ensures run { Over K.meaning keep.old keep.new (λ c H. IfOk result (OfRecords file.now (IsImportOf (K.meaning.holds keep.new) H))) }
    ensures steps { Over K.meaning keep.old keep.new (λ c H. IfOk result (AreStepsOf K.meaning keep.old keep.new c H file.now)) }
    ensures whole { Over K.meaning keep.old keep.new (λ c H. IfOk result (AllOutcomesAre IsWholeOutcome)) }
    ensures open { NeverCloses K.meaning → Over K.meaning keep.old keep.new (λ c H. IfOk result (AllOutcomesAre IsOpenOutcome)) }
{
    let mut import = Import::of(alloc, file)?;
    while !import.is_over() {
        import.resume(alloc, keep);
    }
    Ok(import.into_report())
}
