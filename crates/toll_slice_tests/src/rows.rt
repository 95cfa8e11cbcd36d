//! Rows as tests put them.
use std::test::Fail;
use toll_base::{Name, Refusal, Row, Slice};

/// The name in this text, and `HOUSE` if it is none.
pub(crate) fn name(text: &str) -> Name {
    match Name::parse(text.as_bytes()) {
        Ok(name) => name,
        Err(_) => Name::house(),
    }
}

/// Puts the row, which fits.
pub(crate) fn put(slice: &mut Slice, row: Row) -> Result<(), Fail> {
    if !slice.fits(&row) {
        return Err(Fail::from(Refusal::LimitReached));
    }
    Ok(slice.put(row)?)
}
