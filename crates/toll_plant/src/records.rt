//! Records of a file, as `csv` reads them.
ghost use Rattle.std.specs.Prelude.{◌≡◌, IfErr, IfOk, IsErr, Ok, map};
ghost use Rattle.csv.specs.Reading.{error_kind};
ghost use Rattle.csv.specs.Records.{fields_of};
ghost use Rattle.toll_plant.specs.Files.{HasRecords};
ghost use Rattle.toll_plant.specs.ImportFaults.{IsOfReader};

use csv::{ByteRecord, Error, ErrorKind, ReaderBuilder};
use std::alloc::{AllocError, Global};

/// Every record of the file, with any number of fields: `csv` refuses none. The reader of bytes in memory
/// fails only if there is no memory.
pub fn records(alloc: Global, file: &[u8]) -> Result<Vec<ByteRecord>, AllocError>
    ensures { IfOk result (λ records. HasRecords file.now (map fields_of records.items)) }
{
    let reader = ReaderBuilder::new()
        .has_headers(false)
        .flexible(true)
        .from_reader(alloc, file);
    let mut records = Vec::new(alloc);
    for row in reader.into_byte_records() {
        let record = given(row)?;
        records.push(record)?;
    }
    Ok(records)
}

// The record that `csv` gave, unless there was no memory. It refused none for a reason of its own.
fn given(row: Result<ByteRecord, Error>) -> Result<ByteRecord, AllocError>
    requires { IfErr row (λ why. IsOfReader (error_kind why)) }
    ensures same { IfOk result (λ given. row ≡ Ok given) }
    ensures memory { IsErr result → IsErr row }
{
    match row {
        Ok(given) => Ok(given),
        Err(why) => match why.kind() {
            ErrorKind::OutOfMemory | ErrorKind::Io(_) => Err(AllocError),
            _ => unreachable!(),
        },
    }
}

/// The fields of a record. It fails only if memory runs out.
pub fn fields<'r>(alloc: Global, row: &'r ByteRecord) -> Result<Vec<&'r [u8]>, AllocError>
    ensures { IfOk result (λ fields. map (λ f. f.now) fields.items ≡ fields_of row.now) }
{
    let mut fields = Vec::new(alloc);
    for field in row {
        fields.push(field)?;
    }
    Ok(fields)
}
