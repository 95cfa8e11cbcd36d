//! Limits of tests.
ghost use Rattle.std.specs.Prelude.{◌≡◌, ℤ, ◌≤ℤ◌, ◌↔◌, OnErr, OkIff, IfOk, IsOk, IsTrue};

use crate::refusal::Refusal;
use crate::value::Value;

/// The results of a test with which a lot may be released: from `low` to `high`, both included.
#[derive(Clone, Copy, PartialEq, Eq)]
pub struct Limits {
    /// The least value that passes.
    pub low: Value,
    /// The greatest value that passes.
    pub high: Value,
    pub ghost ordered: { low ≤ℤ high },
}

impl Limits {
    /// These limits. [`Refusal::BadAmount`] if `low` is above `high`.
    pub fn new(low: Value, high: Value) -> Result<Self, Refusal>
        ensures ordered { IsOk result ↔ (low ≤ℤ high) }
        ensures limits { IfOk result (λ limits. (limits.low ≡ low) × (limits.high ≡ high)) }
        ensures refusal { OnErr result (result ≡ Err Refusal.BadAmount) }
    {
        if low <= high {
            Ok(Limits { low, high })
        } else {
            Err(Refusal::BadAmount)
        }
    }

    /// Whether the value passes.
    pub fn contains(&self, value: Value) -> bool
        ensures { IsTrue result ↔ ((self.now.low ≤ℤ value) × (value ≤ℤ self.now.high)) }
    {
        self.low <= value && value <= self.high
    }
}
