//! Stories of the office, given to it line by line: owners ask over HTTP, the plant by its words.
mod batches;
mod genealogy;
mod imports;
mod lots;
mod movements;
mod owners;
mod voids;

use crate::Story;
pub use imports::{IMPORTED, K2_IMPORTED, REFUSED_IMPORTS, RefusedStory, check_refused_import};
use std::alloc::Global;
use std::test::Fail;

/// Offices that stories are given to.
pub trait Offices {
    /// Fails if another reply is given along a story, over an office without rows.
    fn check(&mut self, alloc: Global, story: Story) -> Result<(), Fail>;
}

fn check_each<O: Offices>(alloc: Global, offices: &mut O, stories: &[Story]) -> Result<(), Fail> {
    for story in stories {
        offices.check(alloc, story)?;
    }
    Ok(())
}

/// Gives all stories to offices. Fails with the first reply that is another one.
pub fn check_stories<O: Offices>(alloc: Global, offices: &mut O) -> Result<(), Fail> {
    check_each(alloc, offices, batches::BATCHES)?;
    check_each(alloc, offices, genealogy::GENEALOGY)?;
    check_each(alloc, offices, imports::IMPORTS)?;
    check_each(alloc, offices, lots::LOTS)?;
    check_each(alloc, offices, movements::MOVEMENTS)?;
    check_each(alloc, offices, owners::OWNERS)?;
    check_each(alloc, offices, voids::VOIDS)
}
