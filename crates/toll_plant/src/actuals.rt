//! The actuals of a file.
ghost use Rattle.std.specs.Prelude.{◌≡◌, ◌≢◌, ◌↔◌, ◌∷◌, IsTrue, IfOk, IfErr, IsErr, List, Option, Some, map};
ghost use Rattle.csv.specs.Records.{field_at, fields_of};
ghost use Rattle.toll_plant.specs.Files.{AreCommandsOf, Fields, command_in, header};
ghost use Rattle.toll_plant.specs.ImportFaults.{IsNoActualsOf};

use crate::import_fault::ImportFault;
use crate::line::ACTUAL;
use crate::records::{fields, records};
use crate::values::read;
use csv::ByteRecord;
use std::alloc::{AllocError, Global};
use toll_base::{Move, MoveRow};
use toll_desk::{ActualRow, PlantCmd};

// The first record of a file of actuals.
const HEADER: [&'static [u8]; 12] = [
    b"key",
    b"owner",
    b"order",
    b"batch",
    b"segment",
    b"use",
    b"material",
    b"lot_owner",
    b"lot",
    b"sublot",
    b"amount",
    b"day",
];

/// The commands of the records under the header of a file: `None` for a record whose number of fields isn't
/// the number of values of an actual. [`ImportFault::BadHeader`] if the first record isn't the header, or
/// there is none, and [`ImportFault::Memory`] if memory runs out.
pub fn actuals(alloc: Global, file: &[u8]) -> Result<Vec<Option<PlantCmd>>, ImportFault>
    ensures commands { IfOk result (λ commands. AreCommandsOf file.now commands.items) }
    ensures fault { IfErr result (IsNoActualsOf file.now) }
{
    let records = records(alloc, file)?;
    match under_header(records.as_slice()) {
        Ok(rest) => Ok(commands(alloc, rest)?),
        Err(fault) => Err(fault),
    }
}

// The records under the header, if the first of these records is the header. It takes no memory: if it fails,
// the file has no header.
fn under_header(records: &[ByteRecord]) -> Result<&[ByteRecord], ImportFault>
    ensures under { IfOk result (λ rest. map fields_of records.now ≡ header ∷ map fields_of rest.now) }
    ensures fault { IfErr result (λ fault. fault ≡ ImportFault.BadHeader) }
    ensures refused { IsErr result → (rows : List Fields) → map fields_of records.now ≢ header ∷ rows }
{
    let [first, rest @ ..] = records else {
        return Err(ImportFault::BadHeader);
    };
    if is_header(first) {
        Ok(rest)
    } else {
        Err(ImportFault::BadHeader)
    }
}

fn is_header(row: &ByteRecord) -> bool
    ensures { IsTrue result ↔ (fields_of row.now ≡ header) }
{
    let names = HEADER.as_slice();
    let mut place = 0;
    for name in names {
        if !is_field(row, place, name) {
            return false;
        }
        place += 1;
    }
    row.len() == names.len()
}

// Whether the record has this field at this place.
fn is_field(row: &ByteRecord, place: usize, name: &[u8]) -> bool
    ensures { IsTrue result ↔ (field_at (fields_of row.now) place ≡ Some name.now) }
{
    match row.get(place) {
        Some(field) => field == name,
        None => false,
    }
}

// The command of each record.
fn commands(alloc: Global, records: &[ByteRecord]) -> Result<Vec<Option<PlantCmd>>, AllocError>
    ensures { IfOk result (λ commands. commands.items ≡ map (λ r. command_in (fields_of r)) records.now) }
{
    // For the proof: it names the types of what a command for an actual has.
    let _row: Option<ActualRow> = None;
    let _movement: Option<MoveRow> = None;
    let _what: Option<Move> = None;
    let mut commands = Vec::new(alloc);
    for row in records {
        commands.push(command(alloc, row)?)?;
    }
    Ok(commands)
}

// The command of a record.
fn command(alloc: Global, row: &ByteRecord) -> Result<Option<PlantCmd>, AllocError>
    ensures { IfOk result (λ command. command ≡ command_in (fields_of row.now)) }
{
    if row.len() == ACTUAL.values.len() {
        let fields = fields(alloc, row)?;
        Ok(Some(read(alloc, &ACTUAL, fields.as_slice())?))
    } else {
        Ok(None)
    }
}
