//! Columns of a line.
ghost use Rattle.std.specs.Prelude.{◌≡◌, ◌-◌, ◌∷◌, [], ◌++◌, OnOk, decimal};
ghost use Rattle.toll_answers.specs.Columns.{blanks, left_aligned, right_aligned};

use std::alloc::{AllocError, Global};

/// The byte after a column that isn't the last of its line.
pub(crate) const BLANK: u8 = b' ';

/// The byte after the last column of a line.
pub(crate) const LINE_FEED: u8 = b'\n';

/// Adds a text as it is, and the byte behind it.
pub(crate) fn push_whole(text: &mut Vec<u8>, column: &[u8], behind: u8) -> Result<(), AllocError>
    ensures { OnOk result (text.new.items ≡ text.old.items ++ (column.now ++ behind ∷ [])) }
{
    text.extend_from_slice(column)?;
    text.push(behind)?;
    Ok(())
}

/// Adds a text at the left of a column of this width, and the byte behind it. What is longer than the
/// column stays whole.
#[tactic(auto, unfolding(crate::specs::Columns::left_aligned))]
pub(crate) fn push_left(
    text: &mut Vec<u8>,
    width: usize,
    column: &[u8],
    behind: u8,
) -> Result<(), AllocError>
    ensures { OnOk result
        (text.new.items ≡ text.old.items ++ (left_aligned width column.now ++ behind ∷ [])) }
{
    text.extend_from_slice(column)?;
    push_blanks(text, width.saturating_sub(column.len()))?;
    text.push(behind)?;
    Ok(())
}

/// Adds a number at the right of a column of this width, and the byte behind it. What is longer than
/// the column stays whole.
#[tactic(auto, unfolding(crate::specs::Columns::right_aligned))]
pub(crate) fn push_number(
    alloc: Global,
    text: &mut Vec<u8>,
    width: usize,
    number: u64,
    behind: u8,
) -> Result<(), AllocError>
    ensures { OnOk result
        (text.new.items ≡ text.old.items ++ (right_aligned width (decimal number) ++ behind ∷ [])) }
{
    let digits = format!(in alloc; "{number}")?;
    push_blanks(text, width.saturating_sub(digits.len()))?;
    push_whole(text, digits.as_bytes(), behind)
}

fn push_blanks(text: &mut Vec<u8>, count: usize) -> Result<(), AllocError>
    ensures { OnOk result (text.new.items ≡ text.old.items ++ blanks count) }
{
    for _ in 0..count {
        text.push(BLANK)?;
    }
    Ok(())
}
