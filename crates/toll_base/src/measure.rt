//! Measures.
ghost use Rattle.std.specs.Prelude.{◌≡◌, IsTrue, OnErr, OkIff};
ghost use Rattle.std.specs.List.{list_all};
ghost use Rattle.toll_base.specs.Values as value;

use crate::refusal::Refusal;
use crate::text::Text;
use std::marker::Model;

const MOST_MEASURE_BYTES: usize = 8;

/// The unit of measure of a material, such as `kg`: 1 to 8 ASCII letters.
#[derive(Clone, Copy, Debug, PartialEq, Eq)]
pub struct Measure(Text<MOST_MEASURE_BYTES>);

impl Model for Measure {
    ghost use Rattle.std.specs.Prelude.{List, ℕ, IsTrue};
    ghost use Rattle.toll_base.specs.Values.{is_measure};

    ghost Value = { List ℕ };

    ghost view = { λ m. m.0 };

    ghost invariant = { λ m. IsTrue (is_measure m.0) };

    ghost inverse = { λ s. record { 0 = s } };
}

impl Measure {
    /// The measure of these bytes. [`Refusal::BadName`] if they aren't a measure.
    pub fn parse(bytes: &[u8]) -> Result<Self, Refusal>
        ensures measure { OkIff result (IsTrue (value.is_measure bytes.now)) bytes.now }
        ensures refusal { OnErr result (result ≡ Err Refusal.BadName) }
    {
        if !is_measure(bytes) {
            return Err(Refusal::BadName);
        }
        Ok(Measure(Text::new(bytes)))
    }

    /// The measure as it is printed, in ASCII.
    pub fn as_bytes(&self) -> &[u8]
        ensures bytes { result.now ≡ self.now }
        ensures valid { IsTrue (value.is_measure self.now) }
    {
        self.0.as_bytes()
    }
}

fn is_measure(bytes: &[u8]) -> bool
    ensures { result ≡ value.is_measure bytes.now }
{
    (1..=MOST_MEASURE_BYTES).contains(&bytes.len()) && all_letters(bytes)
}

fn all_letters(bytes: &[u8]) -> bool
    ensures { result ≡ list_all value.is_letter bytes.now }
{
    bytes.iter().all(|b| is_letter(*b))
}

fn is_letter(b: u8) -> bool
    ensures { result ≡ value.is_letter b }
{
    b.is_ascii_alphabetic()
}
