//! Files that are cut.
use csv::{ByteRecord, Error, ReaderBuilder};
use std::alloc::Global;
use std::test::Fail;
use toll_keep::MemKeep;
use toll_plant::{ImportFault, ImportReport, Outcome, import_actuals};
use toll_stories::REPEATED_FILE;

// Records of other kinds: one with too few fields, one with quotes, and one without a line end.
const MIXED_FILE: &str =
    "key,owner,order,batch,segment,use,material,lot_owner,lot,sublot,amount,day\nK2,ACME,O,1,1,consumed,M,ACME,A,S1,40,11\r\nK3,ACME,O,1,1\n\"K,4\",ACME,O,1,1,produced,P,ACME,P1,S1,\"30\",11";

// How many bytes of each are its header.
const HEADER_LEN: usize = 74;

// How many fields each record of the file has, as `csv` reads it.
fn field_counts(alloc: Global, file: &[u8]) -> Result<Vec<usize>, Error> {
    let reader = ReaderBuilder::new()
        .has_headers(false)
        .flexible(true)
        .from_reader(alloc, file);
    let mut counts = Vec::new(alloc);
    for row in reader.into_byte_records() {
        let row: ByteRecord = row?;
        if counts.push(row.len()).is_err() {
            return Err(Error::out_of_memory());
        }
    }
    Ok(counts)
}

// Whether there is a line for each record under the header, which is bad if it hasn't twelve fields.
fn has_lines(report: &ImportReport, counts: &[usize]) -> bool {
    let [_header, counts @ ..] = counts else {
        return false;
    };
    let mut records = report.lines.iter().zip(counts);
    report.lines.len() == counts.len()
        && records.all(|(line, count)| (line.outcome == Outcome::BadRecord) == (*count != 12))
}

// Whether the file is refused within its header, and else has a line for each of its records.
fn is_imported(alloc: Global, file: &[u8]) -> Result<bool, Fail> {
    let counts = field_counts(alloc, file)?;
    let has_header = file.len() >= HEADER_LEN;
    Ok(
        match import_actuals(alloc, &mut MemKeep::new(alloc), file) {
            Ok(report) => has_header && has_lines(&report, &counts),
            Err(fault) => !has_header && fault == ImportFault::BadHeader,
        },
    )
}

// Cuts the file at each of its bytes, and fails at one if the import has another outcome.
fn check_cuts(alloc: Global, file: &str) -> Result<(), Fail> {
    let bytes = file.as_bytes();
    for size in 0..bytes.len() + 1 {
        if !is_imported(alloc, &bytes[..size])? {
            return Err(format!(in alloc; "cut at {size}: {file}")?.into());
        }
    }
    Ok(())
}

#[test]
fn a_cut_file_has_lines_for_its_own_records_alone(rt: HostRuntime) -> Result<(), Fail> {
    check_cuts(rt.alloc(), REPEATED_FILE)?;
    check_cuts(rt.alloc(), MIXED_FILE)
}
