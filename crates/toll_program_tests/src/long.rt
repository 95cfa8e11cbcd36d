//! A script that prints much.
use crate::prints::run;
use crate::tables::empty_tables;
use std::test::Fail;
use toll_programs::ScriptEnd;
use toll_stories::{fill_stock, stock_text};

#[test]
fn a_script_prints_a_megabyte(rt: HostRuntime) -> Result<(), Fail> {
    let mut keep = empty_tables(rt.alloc())?;
    fill_stock(rt.alloc(), &mut keep)?;
    let (end, printed) = run(rt.alloc(), &mut keep, b"stock ACME\n");
    let stock = stock_text(rt.alloc())?;
    assert!(rt; end == ScriptEnd::Done);
    assert!(rt; printed.as_slice() == stock.as_bytes());
    Ok(())
}
