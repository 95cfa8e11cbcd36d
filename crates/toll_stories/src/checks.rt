//! Failing if a condition is false.
use std::test::Fail;

/// Fails with this text if the condition is false.
pub fn check(is_so: bool, otherwise: &str) -> Result<(), Fail> {
    if is_so { Ok(()) } else { Err(otherwise.into()) }
}
