//! The fields of a head.
ghost use Rattle.std.specs.Prelude.{◌≡◌, length, map, option_map, All};
ghost use Rattle.httparse.specs.Spans.{IsHeaderWithin, header_bytes};
ghost use Rattle.toll_protocol.specs.Fields.{capped, is_named, is_present, length_claimed, length_of, fields_named, value_if_once};
ghost use Rattle.toll_protocol.specs.Found.{seen_match};

use crate::http_messages::http_request::BODY_LIMIT;
use httparse::spans::HeaderSpan;

/// What a search among the fields of a head found.
#[derive(Clone, Copy)]
pub enum FieldMatch<'b> {
    Absent,
    Once(&'b [u8]),
    Several,
}

impl<'b> FieldMatch<'b> {
    ghost use Rattle.toll_protocol.specs.Found.{seen_match};

    /// Whether there is such a field.
    pub fn is_present(self) -> bool
        ensures { result ≡ is_present (seen_match self.entry) }
    {
        !matches!(self, FieldMatch::Absent)
    }

    /// The value of the only such field.
    pub fn only_one(self) -> Option<&'b [u8]>
        ensures { option_map (λ v. v.now) result ≡ value_if_once (seen_match self.entry) }
    {
        match self {
            FieldMatch::Once(value) => Some(value),
            _ => None,
        }
    }

    /// The length that a `content-length` field claims (RFC 9112, section 6.2), 0 if there is none. `None` if
    /// it isn't digits alone, or if there is more than one such field. For a length above the limit of
    /// bodies, the result is one above that limit.
    pub fn length_claimed(self) -> Option<u64>
        ensures { result ≡ capped (length_claimed (seen_match self.entry)) }
    {
        match self {
            FieldMatch::Absent => Some(0),
            FieldMatch::Once(digits) => length_of(digits),
            FieldMatch::Several => None,
        }
    }
}

/// The value of the fields with this name, in whatever case, if there is just one.
pub fn find_field<'b>(text: &'b [u8], fields: &[HeaderSpan], name: &[u8]) -> FieldMatch<'b>
    requires { All (IsHeaderWithin (length text.now)) fields.now }
    ensures { seen_match result ≡ fields_named name.now (map (header_bytes text.now) fields.now) }
{
    let mut found = FieldMatch::Absent;
    for field in fields {
        if has_name(text, field, name) {
            match found {
                FieldMatch::Absent => found = FieldMatch::Once(field.value.of(text)),
                _ => return FieldMatch::Several,
            }
        }
    }
    found
}

fn has_name(text: &[u8], field: &HeaderSpan, name: &[u8]) -> bool
    requires { IsHeaderWithin (length text.now) field.now }
    ensures { result ≡ is_named name.now (header_bytes text.now field.now) }
{
    field.name.of(text).eq_ignore_ascii_case(name)
}

// The number that the digits write, or one above the limit of bodies if it is larger.
fn length_of(digits: &[u8]) -> Option<u64>
    ensures { result ≡ capped (length_of digits.now) }
{
    if digits.is_empty() {
        return None;
    }
    let mut len = 0u64;
    for digit in digits {
        if !digit.is_ascii_digit() {
            return None;
        }
        len = (len * 10 + u64::from(*digit - b'0')).min(BODY_LIMIT + 1);
    }
    Some(len)
}
