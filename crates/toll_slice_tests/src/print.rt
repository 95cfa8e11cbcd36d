//! A recall whose columns are full.
use crate::rows::name;
use std::test::Fail;
use toll_answers::{RecallLine, recall_text};
use toll_base::{Disposition, LotId};
use toll_stock::Totals;
use toll_trace::Step;

// A lot with names as long as they get, and as much on hand.
fn full_line() -> RecallLine {
    RecallLine {
        step: Step {
            steps: 0,
            lot: LotId {
                owner: name("ABCDEFGHIJKLMNOP"),
                lot: name("LOT-567890123456"),
            },
        },
        disposition: Disposition::Quarantined,
        totals: Totals {
            on_hand: 20_000_000_000_000,
            shipped: 0,
        },
    }
}

const FULL_LINE: &str =
    " steps owner            lot              disposition        on-hand        shipped\n     0 ABCDEFGHIJKLMNOP LOT-567890123456 quarantined 20000000000000              0\n";

#[test]
fn a_recall_stands_under_its_headings(rt: HostRuntime) -> Result<(), Fail> {
    let text = recall_text(rt.alloc(), &[full_line()])?;
    assert_eq!(rt; text.as_slice(), FULL_LINE.as_bytes());
    Ok(())
}
