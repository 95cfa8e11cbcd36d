//! Laws of texts: how a text is read, and how long it may be.
ghost use Rattle.std.specs.Prelude.{◌≡◌, ℕ, List};
ghost use Rattle.toll_protocol.specs.Parsing.{IsParsedAs, ParseResult};
ghost use Rattle.toll_protocol.specs.Limits.{head_limit, field_limit, body_limit, text_limit};

/// A text has only one reading.
pub fn a_text_comes_to_one_thing()
    ensures { (text : List ℕ) (one other : ParseResult) → IsParsedAs text one → IsParsedAs text other → one ≡ other }
{}

/// The limits of a request are those in the documentation: a head of 8,192 bytes and 32 fields, a body of
/// 4,096 bytes, and so 12,288 bytes of a stream.
pub fn limits_are_those_defined()
    ensures head { head_limit ≡ 8192 }
    ensures fields { field_limit ≡ 32 }
    ensures body { body_limit ≡ 4096 }
    ensures text { text_limit ≡ 12288 }
{}
