//! Laws of imports: which records act.
ghost use Rattle.std.specs.Prelude.{◌≡◌, List};
ghost use Rattle.toll_base.specs.Bytes.{Bytes};
ghost use Rattle.toll_history.specs.History.{History};
ghost use Rattle.toll_history.specs.Verdict.{IsLawful};
ghost use Rattle.toll_plant.specs.Files.{Fields, HasRecords};
ghost use Rattle.toll_plant.specs.ImportLaws.{ActsOnce, AreRecordsStanding, AreImports, AreRepeated, Imported, StandOnceImported};
ghost use Rattle.toll_plant.specs.declared.importing.TheConstants.{MOST_FILE_BYTES};

/// A file of actuals has at most 1,048,576 bytes.
pub fn a_file_has_a_limit()
    ensures { MOST_FILE_BYTES ≡ 1048576 }
{}

/// A file has one list of records, and so its import one list of commands.
pub fn a_file_has_one_list_of_records()
    ensures { (file : Bytes) (records others : List Fields) → HasRecords file records → HasRecords file others → records ≡ others }
{}

/// Take any number of files that are imported, and any other commands that are accepted between them. Of an
/// owner and a key at most one record is ever accepted, and none if a movement has the key before.
pub fn a_key_is_imported_once()
    ensures { (old new : History) (imports : List Imported) (o key : Bytes) → IsLawful new → AreImports old imports new → ActsOnce o key old imports }
{}

/// If each record of a file is an actual that is recorded, equal in all and not voided, each is repeated, up
/// to a fault, and nothing changes.
pub fn what_stands_is_repeated()
    ensures { (old : History) (records : List Fields) → IsLawful old → AreRecordsStanding old records → AreRepeated old records }
{}

/// If each record of a file was accepted or repeated, each is recorded afterwards. So each is repeated when
/// the file is imported again.
pub fn what_was_imported_stands()
    ensures { (old new : History) (records : List Fields) → IsLawful new → StandOnceImported old new records }
{}
