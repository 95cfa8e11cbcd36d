//! Numbers as they are written.
ghost use Rattle.std.specs.Prelude.{◌≡◌, ℕ};
ghost use Rattle.std.specs.List.{list_all};
ghost use Rattle.toll_base.specs.Values as value;

const MOST_DIGITS: usize = 10;

/// The number that these bytes write: 1 to 10 decimal digits, leading zeros allowed. `None` if they
/// write no number. A sign isn't part of it: the code that reads words also reads the `M` before a
/// negative value of a test.
pub fn number(bytes: &[u8]) -> Option<u64>
    ensures { result ≡ value.number_of bytes.now }
{
    if !is_decimal(bytes) {
        return None;
    }
    match str::from_utf8(bytes) {
        Ok(digits) => digits.parse().ok(),
        Err(_) => None,
    }
}

fn is_decimal(bytes: &[u8]) -> bool
    ensures { result ≡ value.is_text_of value.is_digit 1 10 bytes.now }
{
    (1..=MOST_DIGITS).contains(&bytes.len()) && all_digits(bytes)
}

fn all_digits(bytes: &[u8]) -> bool
    ensures { result ≡ list_all value.is_digit bytes.now }
{
    bytes.iter().all(|b| b.is_ascii_digit())
}
