//! Commands and imports, as the program does them.
use crate::prints::{BEGUN, check_prints_over};
use crate::tables::empty_tables;
use std::alloc::Global;
use std::test::Fail;
use toll_base::Refusal;
use toll_desk::PlantCmd;
use toll_keep::{Keep, MemKeep};
use toll_programs::{plant_import, plant_line};
use toll_stories::{REPEATED_FILE, check, plant_cmd};

// What is written to output and to error, and the exit status.
type Ended = (&'static str, &'static str, u64);

// Fails if another text was written, or the status is another.
fn check_ended(output: &[u8], error: &[u8], status: u64, wanted: Ended) -> Result<(), Fail> {
    let (shown, failed, ends) = wanted;
    let is_so = output == shown.as_bytes() && error == failed.as_bytes() && status == ends;
    check(is_so, shown)
}

// Fails if a command ends in another way.
fn check_command<K: Keep>(
    alloc: Global,
    keep: &mut K,
    words: &[&str],
    wanted: Ended,
) -> Result<(), Fail> {
    let Some(command) = plant_cmd(alloc, words)? else {
        return Err("no command".into());
    };
    let mut output = Vec::new(alloc);
    let mut error = Vec::new(alloc);
    let status = plant_line(alloc, keep, &command, &mut output, &mut error);
    check_ended(&output, &error, status, wanted)
}

const COMMANDS: &[(&[&str], Ended)] = &[
    (&["owner-add", "ACME", "ACMEKEY1"], ("accepted\n", "", 0)),
    (
        &["owner-add", "ACME", "ACMEKEY1"],
        ("refused 4 OwnerExists\n", "", 1),
    ),
    (&["orders", "ACME"], ("", "", 0)),
    (&["stock", "BOLT"], ("refused 3 UnknownOwner\n", "", 1)),
];

fn check_commands<K: Keep>(alloc: Global, keep: &mut K) -> Result<(), Fail> {
    for row in COMMANDS {
        let (words, wanted) = *row;
        check_command(alloc, keep, words, wanted)?;
    }
    Ok(())
}

#[test]
fn a_command_ends_with_its_status(rt: HostRuntime) -> Result<(), Fail> {
    check_commands(rt.alloc(), &mut MemKeep::new(rt.alloc()))?;
    check_commands(rt.alloc(), &mut empty_tables(rt.alloc())?)
}

// The line of each refusal.
const REFUSALS: &[(Refusal, &'static str)] = &[
    (Refusal::BadName, "refused 1 BadName\n"),
    (Refusal::BadAmount, "refused 2 BadAmount\n"),
    (Refusal::UnknownOwner, "refused 3 UnknownOwner\n"),
    (Refusal::OwnerExists, "refused 4 OwnerExists\n"),
    (Refusal::UnitExists, "refused 5 UnitExists\n"),
    (Refusal::UnknownUnit, "refused 6 UnknownUnit\n"),
    (Refusal::UnitBusy, "refused 7 UnitBusy\n"),
    (Refusal::MaterialExists, "refused 8 MaterialExists\n"),
    (Refusal::UnknownMaterial, "refused 9 UnknownMaterial\n"),
    (Refusal::MaterialInUse, "refused 10 MaterialInUse\n"),
    (Refusal::TestExists, "refused 11 TestExists\n"),
    (Refusal::RecipeExists, "refused 12 RecipeExists\n"),
    (Refusal::UnknownRecipe, "refused 13 UnknownRecipe\n"),
    (Refusal::RecipeInUse, "refused 14 RecipeInUse\n"),
    (Refusal::BadSegment, "refused 15 BadSegment\n"),
    (Refusal::RequirementExists, "refused 16 RequirementExists\n"),
    (Refusal::OrderExists, "refused 17 OrderExists\n"),
    (Refusal::UnknownOrder, "refused 18 UnknownOrder\n"),
    (Refusal::OrderCancelled, "refused 19 OrderCancelled\n"),
    (Refusal::OrderStarted, "refused 20 OrderStarted\n"),
    (Refusal::NoMoreBatches, "refused 21 NoMoreBatches\n"),
    (Refusal::UnknownBatch, "refused 22 UnknownBatch\n"),
    (Refusal::BadState, "refused 23 BadState\n"),
    (Refusal::BatchClosed, "refused 24 BatchClosed\n"),
    (Refusal::BatchIdle, "refused 25 BatchIdle\n"),
    (Refusal::NotInRecipe, "refused 26 NotInRecipe\n"),
    (Refusal::UnknownLot, "refused 27 UnknownLot\n"),
    (Refusal::UnknownSublot, "refused 28 UnknownSublot\n"),
    (Refusal::WrongMaterial, "refused 29 WrongMaterial\n"),
    (Refusal::WrongOrigin, "refused 30 WrongOrigin\n"),
    (Refusal::NotReleased, "refused 31 NotReleased\n"),
    (Refusal::NotQuarantined, "refused 32 NotQuarantined\n"),
    (Refusal::NotEnough, "refused 33 NotEnough\n"),
    (Refusal::SameSublot, "refused 34 SameSublot\n"),
    (Refusal::KeyConflict, "refused 35 KeyConflict\n"),
    (Refusal::TestsOpen, "refused 36 TestsOpen\n"),
    (Refusal::UnknownTest, "refused 37 UnknownTest\n"),
    (Refusal::CrossOwner, "refused 38 CrossOwner\n"),
    (Refusal::LimitReached, "refused 39 LimitReached\n"),
    (Refusal::UnknownKey, "refused 40 UnknownKey\n"),
    (Refusal::Voided, "refused 41 Voided\n"),
    (Refusal::Rejected, "refused 42 Rejected\n"),
];

// Fails if the refusal has another line, or the command doesn't end as a refused one.
fn check_refusal(alloc: Global, why: Refusal, wanted: &'static str) -> Result<(), Fail> {
    let mut keep = MemKeep::new(alloc);
    let mut output = Vec::new(alloc);
    let mut error = Vec::new(alloc);
    let command = PlantCmd::Unread(why);
    let status = plant_line(alloc, &mut keep, &command, &mut output, &mut error);
    check_ended(&output, &error, status, (wanted, "", 1))
}

#[test]
fn each_refusal_has_its_line(rt: HostRuntime) -> Result<(), Fail> {
    for row in REFUSALS {
        let (why, wanted) = *row;
        check_refusal(rt.alloc(), why, wanted)?;
    }
    Ok(())
}

// Fails if an import over an empty keep, in which a batch runs, ends in another way.
fn check_import<K: Keep>(
    alloc: Global,
    keep: &mut K,
    file: &str,
    wanted: Ended,
) -> Result<(), Fail> {
    check_prints_over(alloc, keep, &[BEGUN])?;
    let mut output = Vec::new(alloc);
    let mut error = Vec::new(alloc);
    let status = plant_import(alloc, keep, file.as_bytes(), &mut output, &mut error);
    check_ended(&output, &error, status, wanted)
}

const IMPORTS: &[(&str, Ended)] = &[
    (
        REPEATED_FILE,
        (
            "     1 accepted
     2 accepted
     3 repeated
accepted 2 repeated 1 refused 0 bad 0 fault 0
",
            "",
            0,
        ),
    ),
    (
        "key,owner,order,batch,segment,use,material,lot_owner,lot,sublot,amount,day
K1,ACME,O,1,1,consumed,M,ACME,A,S1,40
K2,ACME,O,1,1,consumed,M,ACME,A,S1,40,11
",
        (
            "     1 bad-record
     2 accepted
accepted 1 repeated 0 refused 0 bad 1 fault 0
",
            "",
            1,
        ),
    ),
    ("", ("", "bad header\n", 2)),
];

#[test]
fn an_import_ends_with_its_status(rt: HostRuntime) -> Result<(), Fail> {
    for row in IMPORTS {
        let (file, wanted) = *row;
        check_import(rt.alloc(), &mut MemKeep::new(rt.alloc()), file, wanted)?;
        check_import(rt.alloc(), &mut empty_tables(rt.alloc())?, file, wanted)?;
    }
    Ok(())
}
