//! Stories of the office over tables.
use crate::keep::offices::{BareKeep, TableKeep, bare_tables, empty_tables, taken_over};
use std::alloc::Global;
use std::test::Fail;
use toll_stories::{
    Offices, REFUSED_IMPORTS, Story, check_chapter, check_receipts, check_refused_import,
    check_said_over, check_stories,
};

/// Offices in tables that are given back and taken over again after each chapter.
#[derive(Drop)]
struct Tables;

impl Offices for Tables {
    fn check(&mut self, alloc: Global, story: Story) -> Result<(), Fail> {
        let mut keep = empty_tables(alloc)?;
        for chapter in story {
            check_chapter::<TableKeep>(alloc, &mut keep, chapter)?;
            keep = taken_over(alloc, keep)?;
        }
        Ok(())
    }
}

/// Offices in tables of which nothing is remembered.
#[derive(Drop)]
struct BareTables;

impl Offices for BareTables {
    fn check(&mut self, alloc: Global, story: Story) -> Result<(), Fail> {
        check_said_over::<BareKeep>(alloc, &mut bare_tables(alloc)?, story)
    }
}

#[test]
fn each_story_is_said_over_tables(rt: HostRuntime) -> Result<(), Fail> {
    check_stories(rt.alloc(), &mut Tables)?;
    check_stories(rt.alloc(), &mut BareTables)
}

#[test]
fn a_refused_group_stands_up_to_its_first_change_over_tables(rt: HostRuntime) -> Result<(), Fail> {
    for story in REFUSED_IMPORTS {
        check_refused_import(rt.alloc(), empty_tables(rt.alloc())?, story)?;
    }
    Ok(())
}

#[test]
fn each_of_300_receipts_is_in_stock_over_tables(rt: HostRuntime) -> Result<(), Fail> {
    check_receipts(rt.alloc(), &mut empty_tables(rt.alloc())?)
}
