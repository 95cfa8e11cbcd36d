//! Numbers within bounds.
ghost use Rattle.std.specs.Prelude.{◌≡◌, ℕ, ◌≤◌, OnErr, OkIff};
ghost use Rattle.toll_base.specs.Values.{IsAmount, IsDay, IsSegment, IsBatchNo};

use crate::refusal::Refusal;
use std::marker::Model;

/// A whole number from `LEAST` to `MOST`.
#[derive(Clone, Copy, Debug, PartialEq, Eq, PartialOrd, Ord)]
pub struct Bounded<const LEAST: u64, const MOST: u64>(u64);

impl<const LEAST: u64, const MOST: u64> Model for Bounded<LEAST, MOST> {
    ghost use Rattle.std.specs.Prelude.{ℕ, ◌≤◌};

    ghost Value = { ℕ };

    ghost view = { λ n. n.0 };

    ghost invariant = { λ n. (LEAST ≤ n.0) × (n.0 ≤ MOST) };

    ghost inverse = { λ n. record { 0 = n } };
}

impl<const LEAST: u64, const MOST: u64> Bounded<LEAST, MOST> {
    /// This number. [`Refusal::BadAmount`] if it is out of the bounds.
    pub fn new(n: u64) -> Result<Self, Refusal>
        ensures within { OkIff result ((LEAST ≤ n) × (n ≤ MOST)) n }
        ensures refusal { OnErr result (result ≡ Err Refusal.BadAmount) }
    {
        if LEAST <= n && n <= MOST {
            Ok(Bounded(n))
        } else {
            Err(Refusal::BadAmount)
        }
    }

    /// The number, from `LEAST` to `MOST`.
    pub fn get(self) -> u64
        ensures number { result ≡ self.entry }
        ensures bounds { (LEAST ≤ self.entry) × (self.entry ≤ MOST) }
    {
        self.0
    }
}

/// The greatest amount of a movement or of a requirement.
pub const MOST_AMOUNT: u64 = 1_000_000_000;

/// The last day that can be recorded.
pub const MOST_DAY: u64 = 9_999_999;

/// The most segments of a recipe.
pub const MOST_SEGMENTS: u64 = 50;

/// The most batches of an order.
pub const MOST_BATCHES: u64 = 99;

/// An amount of material, in its measure: 1 to 1,000,000,000.
pub type Amount = Bounded<1, MOST_AMOUNT>;

/// A day: 0 to 9,999,999, kept and printed, never interpreted.
pub type Day = Bounded<0, MOST_DAY>;

/// The number of a segment of a recipe, or how many segments it has: 1 to 50.
pub type Segment = Bounded<1, MOST_SEGMENTS>;

/// The number of a batch of an order, or how many batches it has: 1 to 99.
pub type BatchNo = Bounded<1, MOST_BATCHES>;

/// How each of these types takes a number: as a value if and only if the definitions say so, else
/// with [`Refusal::BadAmount`].
pub fn numbers_are_those_defined(
    n: u64,
) -> (
    Result<Amount, Refusal>,
    Result<Day, Refusal>,
    Result<Segment, Refusal>,
    Result<BatchNo, Refusal>,
)
    ensures amount { OkIff result.0 (IsAmount n) n }
    ensures day { OkIff result.1 (IsDay n) n }
    ensures segment { OkIff result.2 (IsSegment n) n }
    ensures batch { OkIff result.3 (IsBatchNo n) n }
{
    (
        Amount::new(n),
        Day::new(n),
        Segment::new(n),
        BatchNo::new(n),
    )
}
