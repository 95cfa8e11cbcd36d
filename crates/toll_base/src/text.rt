//! Short texts of bytes.
ghost use Rattle.std.specs.Prelude.{◌≡◌, ℕ, ◌-◌, ◌≤◌, ◌++◌, length, replicate};
ghost use Rattle.std.specs.Prelude.{Some, refl};
ghost use Rattle.std.specs.Cmp.{partial_equiv_from_equiv, eq_by_cmp_equiv, partial_order_from_total};
ghost use Rattle.std.specs.Cmp.Lexicographic.{nat_list_cmp_total};
ghost use Rattle.toll_base.specs.Bytes.{bytes_cmp, same_bytes};

use std::cmp::Ordering;
use std::marker::Model;

/// Up to `MOST` bytes, copied as one value and compared byte by byte.
#[derive(Clone, Copy, Debug)]
pub struct Text<const MOST: usize> {
    bytes: [u8; MOST],
    len: u8,
}

impl<const MOST: usize> Model for Text<MOST> {
    ghost use Rattle.std.specs.Prelude.{◌≡◌, ℕ, ◌-◌, ◌≤◌, ◌++◌, List, length, take, drop, replicate};
    ghost use Rattle.std.proofs.Common.{arith, take-append-drop, length-take-le, ◌∙◌, ap, sym};

    ghost Value = { List ℕ };

    ghost view = { λ t. take t.len t.bytes };

    ghost invariant = { λ t. (t.len ≤ MOST) × (length t.bytes ≡ MOST) × (drop t.len t.bytes ≡ replicate (MOST - t.len) 0) };

    ghost inverse = { λ s. record { bytes = s ++ replicate (MOST - length s) 0; len = length s } };

    ghost inverse_ok = { λ t h i.
        let len = length-take-le t.len t.bytes (omega (arith, h.0, h.1)) in
        record {
          bytes = (ap (λ k. take t.len t.bytes ++ replicate (MOST - k) 0) len ∙ ap (λ s. take t.len t.bytes ++ s) (sym h.2) ∙ take-append-drop t.len t.bytes) i;
          len = len i;
        } };
}

impl<const MOST: usize> Text<MOST> {
    /// The text of these bytes.
    pub fn new(bytes: &[u8]) -> Self
        requires fits { length bytes.now ≤ MOST }
        requires short { MOST ≤ 255 }
        ensures { result ≡ bytes.now }
    {
        Text {
            bytes: padded(bytes),
            len: bytes.len() as u8,
        }
    }

    /// Its bytes, `MOST` at most.
    pub fn as_bytes(&self) -> &[u8]
        ensures bytes { result.now ≡ self.now }
        ensures short { length self.now ≤ MOST }
    {
        &self.bytes[..self.len as usize]
    }
}

// The bytes, and zeros after them.
fn padded<const MOST: usize>(bytes: &[u8]) -> [u8; MOST]
    requires { length bytes.now ≤ MOST }
    ensures { result ≡ bytes.now ++ replicate (MOST - length bytes.now) 0 }
{
    let mut padded = [0; MOST];
    padded[..bytes.len()].copy_from_slice(bytes);
    padded
}

impl<const MOST: usize> PartialEq for Text<MOST> {
    ghost eq = { same_bytes };

    ghost laws = { partial_equiv_from_equiv (eq_by_cmp_equiv nat_list_cmp_total) };

    fn eq(&self, other: &Self) -> bool {
        self.cmp(other).is_eq()
    }
}

impl<const MOST: usize> Eq for Text<MOST> {
    ghost laws = { eq_by_cmp_equiv nat_list_cmp_total };
}

impl<const MOST: usize> PartialOrd for Text<MOST> {
    ghost partial_cmp = { λ s t. Some (bytes_cmp s t) };

    ghost laws = { partial_order_from_total nat_list_cmp_total };

    fn partial_cmp(&self, other: &Self) -> Option<Ordering> {
        Some(self.cmp(other))
    }
}

impl<const MOST: usize> Ord for Text<MOST> {
    ghost cmp = { bytes_cmp };

    ghost total = { nat_list_cmp_total };

    ghost matches_partial_cmp = { λ s t. refl };

    ghost matches_eq = { λ s t. refl };

    fn cmp(&self, other: &Self) -> Ordering {
        self.as_bytes().cmp(other.as_bytes())
    }
}
