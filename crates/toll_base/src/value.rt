//! Values of tests.
ghost use Rattle.std.specs.Prelude.{◌≡◌, OnErr, OkIff};
ghost use Rattle.toll_base.specs.Values.{IsValue};

use crate::refusal::Refusal;
use std::marker::Model;

/// The least value of a test.
pub const LEAST_VALUE: i64 = -1_000_000_000;

/// The greatest value of a test.
pub const MOST_VALUE: i64 = 1_000_000_000;

/// The value of a test of a lot, or a limit of it: -1,000,000,000 to 1,000,000,000.
#[derive(Clone, Copy, Debug, PartialEq, Eq, PartialOrd, Ord)]
pub struct Value(i64);

impl Model for Value {
    ghost use Rattle.std.specs.Prelude.{ℤ};
    ghost use Rattle.toll_base.specs.Values.{IsValue};

    ghost Value = { ℤ };

    ghost view = { λ v. v.0 };

    ghost invariant = { λ v. IsValue v.0 };

    ghost inverse = { λ z. record { 0 = z } };
}

impl Value {
    /// This value. [`Refusal::BadAmount`] if it is out of range.
    pub fn new(value: i64) -> Result<Self, Refusal>
        ensures within { OkIff result (IsValue value) value }
        ensures refusal { OnErr result (result ≡ Err Refusal.BadAmount) }
    {
        if LEAST_VALUE <= value && value <= MOST_VALUE {
            Ok(Value(value))
        } else {
            Err(Refusal::BadAmount)
        }
    }

    /// The value as an integer.
    pub fn get(self) -> i64
        ensures number { result ≡ self }
        ensures range { IsValue self }
    {
        self.0
    }
}
