//! Stories of the office over lists.
use std::alloc::Global;
use std::test::Fail;
use toll_keep::MemKeep;
use toll_stories::{
    Offices, REFUSED_IMPORTS, Story, check_receipts, check_refused_import, check_said,
    check_stories,
};

/// Offices in lists.
#[derive(Drop)]
struct Lists;

impl Offices for Lists {
    fn check(&mut self, alloc: Global, story: Story) -> Result<(), Fail> {
        check_said(alloc, story)
    }
}

#[test]
fn each_story_is_said_over_lists(rt: HostRuntime) -> Result<(), Fail> {
    check_stories(rt.alloc(), &mut Lists)
}

#[test]
fn a_refused_group_stands_up_to_its_first_change_over_lists(rt: HostRuntime) -> Result<(), Fail> {
    for story in REFUSED_IMPORTS {
        check_refused_import(rt.alloc(), MemKeep::new(rt.alloc()), story)?;
    }
    Ok(())
}

#[test]
fn each_of_300_receipts_is_in_stock_over_lists(rt: HostRuntime) -> Result<(), Fail> {
    check_receipts(rt.alloc(), &mut MemKeep::new(rt.alloc()))
}
