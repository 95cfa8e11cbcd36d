//! Words as one text.
ghost use Rattle.std.specs.Prelude.{◌≡◌, ◌↔◌, List, [], ◌∷◌, ◌++◌, map, IfNone, IfOk, IfSome, IsTrue};
ghost use Rattle.toll_base.specs.Bytes.{Bytes};
ghost use Rattle.toll_protocol.specs.Words.{AreWords, AreWordsOf, HasNoZero, IsFirstZero, IsWord, words_text};

use std::alloc::{AllocError, Global};

/// Whether no word has a zero in it.
pub fn are_words(words: &[&str]) -> bool
    ensures { IsTrue result ↔ AreWords (map (λ word. word.now) words.now) }
{
    for word in words {
        if first_zero(word.as_bytes()).is_some() {
            return false;
        }
    }
    true
}

/// Each word, and a zero after it.
pub fn text_of(alloc: Global, words: &[&str]) -> Result<Vec<u8>, AllocError>
    ensures { IfOk result (λ text. text.items ≡ words_text (map (λ word. word.now) words.now)) }
{
    let mut text = Vec::new(alloc);
    for word in words {
        text.extend_from_slice(word.as_bytes())?;
        text.push(0)?;
    }
    Ok(text)
}

/// The words that a text is; `None` if it isn't words.
pub fn words_of(alloc: Global, text: &[u8]) -> Result<Option<Vec<&str>>, AllocError>
    ensures found { IfOk result (λ found. IfSome found (λ words. AreWordsOf (map (λ word. word.now) words.items) text.now)) }
    ensures none { IfOk result (λ found. IfNone found ((words : List Bytes) → AreWords words → text.now ≡ words_text words → ⊥)) }
{
    let mut words = Vec::new(alloc);
    let mut rest = text;
    while let Some((word, behind)) = first_word(rest) {
        words.push(word)?;
        rest = behind;
    }
    if rest.is_empty() {
        Ok(Some(words))
    } else {
        Ok(None)
    }
}

// The first word, and the text after its zero.
fn first_word(text: &[u8]) -> Option<(&str, &[u8])>
    ensures found { IfSome result (λ parts. IsWord parts.0.now × (text.now ≡ parts.0.now ++ 0 ∷ parts.1.now)) }
    ensures none { IfNone result ((word rest : Bytes) → IsWord word → text.now ≡ word ++ 0 ∷ rest → ⊥) }
{
    let Some(end) = first_zero(text) else {
        return None;
    };
    match str::from_utf8(&text[..end]) {
        Ok(word) => Some((word, &text[end + 1..])),
        Err(_) => None,
    }
}

// The place of the first zero.
fn first_zero(text: &[u8]) -> Option<usize>
    ensures found { IfSome result (λ n. IsFirstZero text.now n) }
    ensures none { IfNone result (HasNoZero text.now) }
{
    for n in 0..text.len() {
        if text[n] == 0 {
            return Some(n);
        }
    }
    None
}
