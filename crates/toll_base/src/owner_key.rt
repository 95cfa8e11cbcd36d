//! Owners' keys.
ghost use Rattle.std.specs.Prelude.{◌≡◌, IsTrue, OnErr, OkIff};
ghost use Rattle.std.specs.List.{list_all};
ghost use Rattle.toll_base.specs.Values as value;

use crate::refusal::Refusal;
use crate::text::Text;
use std::marker::Model;

const LEAST_KEY_BYTES: usize = 8;

const MOST_KEY_BYTES: usize = 32;

/// The key that an owner sends with each request: 8 to 32 ASCII letters or digits.
#[derive(Clone, Copy, Debug, PartialEq, Eq)]
pub struct OwnerKey(Text<MOST_KEY_BYTES>);

impl Model for OwnerKey {
    ghost use Rattle.std.specs.Prelude.{List, ℕ, IsTrue};
    ghost use Rattle.toll_base.specs.Values.{is_owner_key};

    ghost Value = { List ℕ };

    ghost view = { λ k. k.0 };

    ghost invariant = { λ k. IsTrue (is_owner_key k.0) };

    ghost inverse = { λ s. record { 0 = s } };
}

impl OwnerKey {
    /// The key of these bytes. [`Refusal::BadName`] if they aren't a key.
    pub fn parse(bytes: &[u8]) -> Result<Self, Refusal>
        ensures key { OkIff result (IsTrue (value.is_owner_key bytes.now)) bytes.now }
        ensures refusal { OnErr result (result ≡ Err Refusal.BadName) }
    {
        if !is_owner_key(bytes) {
            return Err(Refusal::BadName);
        }
        Ok(OwnerKey(Text::new(bytes)))
    }

    /// The key as it is sent, in ASCII.
    pub fn as_bytes(&self) -> &[u8]
        ensures bytes { result.now ≡ self.now }
        ensures valid { IsTrue (value.is_owner_key self.now) }
    {
        self.0.as_bytes()
    }
}

fn is_owner_key(bytes: &[u8]) -> bool
    ensures { result ≡ value.is_owner_key bytes.now }
{
    (LEAST_KEY_BYTES..=MOST_KEY_BYTES).contains(&bytes.len()) && all_letters_or_digits(bytes)
}

fn all_letters_or_digits(bytes: &[u8]) -> bool
    ensures { result ≡ list_all value.is_letter_or_digit bytes.now }
{
    bytes.iter().all(|b| is_letter_or_digit(*b))
}

fn is_letter_or_digit(b: u8) -> bool
    ensures { result ≡ value.is_letter_or_digit b }
{
    b.is_ascii_alphanumeric()
}
