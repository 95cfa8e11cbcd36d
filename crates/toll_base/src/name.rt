//! Names.
ghost use Rattle.std.specs.Prelude.{◌≡◌, IsTrue, OnErr, OkIff, length, ◌≤◌};
ghost use Rattle.std.specs.List.{list_all};
ghost use Rattle.toll_base.specs.Values.{house_name};
ghost use Rattle.toll_base.specs.Values as value;

use crate::refusal::Refusal;
use crate::text::Text;
use std::marker::Model;

const MOST_NAME_BYTES: usize = 16;

/// The name of an owner, a unit, a material, a test, a recipe, an order, a lot, a sublot or a
/// movement: 1 to 16 bytes of `A` to `Z`, `0` to `9` and `-`, the first not `-`. Names are ordered
/// by their bytes.
#[derive(Clone, Copy, Debug, PartialEq, Eq, PartialOrd, Ord)]
pub struct Name(Text<MOST_NAME_BYTES>);

impl Model for Name {
    ghost use Rattle.std.specs.Prelude.{List, ℕ, IsTrue};
    ghost use Rattle.toll_base.specs.Values.{is_name};

    ghost Value = { List ℕ };

    ghost view = { λ n. n.0 };

    ghost invariant = { λ n. IsTrue (is_name n.0) };

    ghost inverse = { λ s. record { 0 = s } };
}

impl Name {
    /// The name of these bytes. [`Refusal::BadName`] if they aren't a name.
    pub fn parse(bytes: &[u8]) -> Result<Self, Refusal>
        ensures name { OkIff result (IsTrue (value.is_name bytes.now)) bytes.now }
        ensures refusal { OnErr result (result ≡ Err Refusal.BadName) }
    {
        if !is_name(bytes) {
            return Err(Refusal::BadName);
        }
        Ok(Name(Text::new(bytes)))
    }

    /// `HOUSE`, the plant's own owner.
    pub fn house() -> Self
        ensures { result ≡ house_name }
    {
        Name(Text::new(b"HOUSE"))
    }

    /// The name as it is printed, in ASCII.
    pub fn as_bytes(&self) -> &[u8]
        ensures bytes { result.now ≡ self.now }
        ensures valid { IsTrue (value.is_name self.now) }
    {
        self.0.as_bytes()
    }
}

fn is_name(bytes: &[u8]) -> bool
    ensures { result ≡ value.is_name bytes.now }
{
    (1..=MOST_NAME_BYTES).contains(&bytes.len()) && all_name_bytes(bytes) && begins_well(bytes)
}

fn begins_well(bytes: &[u8]) -> bool
    ensures { result ≡ value.begins_well bytes.now }
{
    match bytes.first() {
        None => false,
        Some(first) => *first != b'-',
    }
}

fn all_name_bytes(bytes: &[u8]) -> bool
    ensures { result ≡ list_all value.is_name_byte bytes.now }
{
    bytes.iter().all(|b| is_name_byte(*b))
}

fn is_name_byte(b: u8) -> bool
    ensures { result ≡ value.is_name_byte b }
{
    b.is_ascii_uppercase() || b.is_ascii_digit() || b == b'-'
}
