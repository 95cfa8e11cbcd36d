//! Cutting texts at a byte.
ghost use Rattle.std.specs.Prelude.{◌≡◌, ◌==◌, ◌<◌, [], ◌∷◌, length, MatchOption, IfSome, position};
ghost use Rattle.toll_programs.specs.Pieces.{pieces_at};

/// The text before the first of these bytes, and the text after it: `None` if there is no such byte.
pub fn cut(text: &[u8], at: u8) -> Option<(&[u8], &[u8])>
    ensures pieces { MatchOption result (pieces_at at text.now ≡ text.now ∷ [])
        (λ parts. pieces_at at text.now ≡ parts.0.now ∷ pieces_at at parts.1.now) }
    ensures shorter { IfSome result (λ parts. length parts.1.now < length text.now) }
{
    match position_of(text, at) {
        None => None,
        Some(place) => Some((&text[..place], &text[place + 1..])),
    }
}

fn position_of(text: &[u8], byte: u8) -> Option<usize>
    ensures { result ≡ position (λ b. b == byte) text.now }
{
    text.iter().position(|b| *b == byte)
}
