//! What an owner's rows say along stories.
use std::alloc::Global;
use std::test::Fail;
use toll_base::{Decision, Name, Refusal, Slice};
use toll_keep::{Keep, MemKeep};
use toll_stock::{lot_totals, on_hand};
use toll_stories::{
    A_CONSUMED, RELEASED_AND_PLACED, Story, WITH_BATCH, WITH_HOUSE, WITH_RECIPE, check,
    check_chapter, check_said_over,
};
use toll_work::open_batch;

fn reported(alloc: Global, story: &[&str]) -> Result<MemKeep, Fail> {
    let mut keep = MemKeep::new(alloc);
    check_said_over(alloc, &mut keep, story)?;
    Ok(keep)
}

fn slice_of(alloc: Global, keep: &mut MemKeep, owner: &[u8]) -> Result<Slice, Fail> {
    match keep.slice(alloc, &Name::parse(owner)?)? {
        Some(slice) => Ok(slice),
        None => Err("no such owner".into()),
    }
}

const SPLIT_AND_SCRAPPED: &str = r#"
split ACME K4 A S1 S2 30 12
scrap ACME K6 A S2 30 12
ship ACME K7 A S1 70 12
"#;

fn check_on_hand(slice: &Slice, sublot: &[u8], wanted: Option<u64>) -> Result<(), Fail> {
    let held = on_hand(slice, &Name::parse(b"A")?, &Name::parse(sublot)?);
    check(held == wanted, "another amount is on hand")
}

#[test]
fn a_sublot_at_zero_stays(rt: HostRuntime) -> Result<(), Fail> {
    let story: Story = &[WITH_RECIPE, WITH_BATCH, SPLIT_AND_SCRAPPED];
    let mut keep = reported(rt.alloc(), story)?;
    let slice = slice_of(rt.alloc(), &mut keep, b"ACME")?;
    check_on_hand(&slice, b"S2", Some(0))?;
    check_on_hand(&slice, b"S3", None)
}

fn check_totals(slice: &Slice, lot: &[u8], wanted: Option<(u64, u64)>) -> Result<(), Fail> {
    let totals = lot_totals(slice, &Name::parse(lot)?);
    let reported = totals.map(|totals| (totals.on_hand, totals.shipped));
    check(reported == wanted, "another total")
}

const SHIPPED_IN_PARTS: &str = r#"
receive ACME K8 M AB S1 9 12
receive ACME K9 M AB S2 4 12
> ACME ACMEKEY1 POST /lots/AB/release
= 200 {"disposition":"released","lot":"AB","material":"M","measure":"kg","origin":"receipts","results":[],"sublots":[{"amount":9,"sublot":"S1"},{"amount":4,"sublot":"S2"}]}
ship ACME K10 AB S1 2 13
ship ACME K11 AB S2 1 13
"#;

#[test]
fn a_lot_has_what_is_left_and_what_was_shipped(rt: HostRuntime) -> Result<(), Fail> {
    let story: Story = &[
        WITH_RECIPE,
        WITH_BATCH,
        SPLIT_AND_SCRAPPED,
        SHIPPED_IN_PARTS,
    ];
    let mut keep = reported(rt.alloc(), story)?;
    let slice = slice_of(rt.alloc(), &mut keep, b"ACME")?;
    check_totals(&slice, b"A", Some((0, 70)))?;
    check_totals(&slice, b"AB", Some((10, 3)))?;
    check_totals(&slice, b"S1", None)
}

#[test]
fn an_unknown_unit_is_refused_before_a_busy_one(rt: HostRuntime) -> Result<(), Fail> {
    let story: Story = &[WITH_HOUSE, RELEASED_AND_PLACED];
    let mut keep = reported(rt.alloc(), story)?;
    let slice = slice_of(rt.alloc(), &mut keep, b"ACME")?;
    let unit = Name::parse(b"U9")?;
    let decision = open_batch(rt.alloc(), &slice, Name::parse(b"O")?, unit, false, false)?;
    check(
        matches!(decision, Decision::Refuse(Refusal::UnknownUnit)),
        "another decision",
    )
}

// How many movements ACME and HOUSE have.
fn movements(alloc: Global, keep: &mut MemKeep) -> Result<(usize, usize), Fail> {
    let own = slice_of(alloc, keep, b"ACME")?.moves().len();
    let house = slice_of(alloc, keep, b"HOUSE")?.moves().len();
    Ok((own, house))
}

const HOUSE_CONSUMED: &str = r#"
actual K4 ACME O 1 1 consumed W HOUSE H-1 S 10 2
"#;

#[test]
fn what_is_consumed_of_house_is_the_batch_owners_movement(rt: HostRuntime) -> Result<(), Fail> {
    let story: Story = &[WITH_HOUSE, RELEASED_AND_PLACED, A_CONSUMED];
    let mut keep = reported(rt.alloc(), story)?;
    let (own, house) = movements(rt.alloc(), &mut keep)?;
    check_chapter(rt.alloc(), &mut keep, HOUSE_CONSUMED)?;
    let (own_after, house_after) = movements(rt.alloc(), &mut keep)?;
    let is_own = own.checked_add(1) == Some(own_after);
    check(is_own && house_after == house, "another movement")
}

// Lots of one name, of two owners.
const SAME_NAMES: &str = r#"
material-add BOLT M kg
receive BOLT K1 M A S1 50 10
> BOLT BOLTKEY1 POST /lots/A/release
= 200 {"disposition":"released","lot":"A","material":"M","measure":"kg","origin":"receipts","results":[],"sublots":[{"amount":50,"sublot":"S1"}]}
ship BOLT K2 A S1 20 11
stock ACME
: A                S1               M                released               100 kg
stock BOLT
: A                S1               M                released                30 kg
"#;

#[test]
fn movements_of_another_owners_lot_leave_ones_own(rt: HostRuntime) -> Result<(), Fail> {
    let mut keep = reported(rt.alloc(), &[WITH_RECIPE, WITH_BATCH])?;
    check_chapter(rt.alloc(), &mut keep, SAME_NAMES)
}
