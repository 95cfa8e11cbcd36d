//! A call of the plant to the server of a file.
ghost use Rattle.std.specs.Prelude.{◌≡◌, ◌++◌, Option, option_map, map, IfNone, IfOk, IfSome, OnOk, Err};
ghost use Rattle.toll_base.specs.Bytes.{Bytes};
ghost use Rattle.toll_protocol.specs.PlantMessages.{FitsCall, IsNoCall, IsReadCall, call_text, file_text};
ghost use Rattle.toll_protocol.specs.Frames.{frame};
ghost use Rattle.toll_protocol.specs.declared.frames.encode_fault.EncodeFault.{EncodeFault};

use crate::frames::encode_fault::EncodeFault;
use crate::frames::encoding::{content_of, encode, front_of};
use crate::frames::words::{are_words, text_of, words_of};
use std::alloc::{AllocError, Global};

/// How many bytes a message of the plant may have: a file of actuals of 1,048,576 bytes, and its words.
pub const MOST_CALL_BYTES: u32 = 1_052_672;

/// Words, and the bytes of the file that they name, if they name one.
#[derive(Drop)]
pub struct Call<'a> {
    pub words: Vec<&'a str>,
    pub file: Option<&'a [u8]>,
}

impl Call<'_> {
    /// The call as a frame. It is unfit if a word has a zero byte in it, or if the whole call is longer than
    /// a message of the plant may be.
    pub fn encode(
        alloc: Global,
        words: &[&str],
        file: Option<&[u8]>,
    ) -> Result<Vec<u8>, EncodeFault>
        ensures whole { IfOk result (λ bytes. bytes.items ≡ frame (call_text (map (λ w. w.now) words.now) (option_map (λ f. f.now) file.entry))) }
        ensures fit { IfOk result (λ _. FitsCall (map (λ w. w.now) words.now) (option_map (λ f. f.now) file.entry)) }
        ensures unfit { result ≡ Err EncodeFault.Unfit → ¬ (FitsCall (map (λ w. w.now) words.now) (option_map (λ f. f.now) file.entry)) }
    {
        if !are_words(words) {
            return Err(EncodeFault::Unfit);
        }
        let text = text_of(alloc, words)?;
        let mut content = encode(alloc, &text, MOST_CALL_BYTES)?;
        add_file(&mut content, file)?;
        encode(alloc, &content, MOST_CALL_BYTES)
    }

    /// The call in a frame. `None` only if the text is not the frame of a call: one that is damaged, cut or
    /// too long.
    pub fn read(alloc: Global, text: &[u8]) -> Result<Option<Call<'_>>, AllocError>
        ensures found { IfOk result (λ found. IfSome found (IsReadCall text.now)) }
        ensures none { IfOk result (λ found. IfNone found (IsNoCall text.now)) }
    {
        let Some(content) = content_of(text, MOST_CALL_BYTES) else {
            return Ok(None);
        };
        let Some((words, rest)) = front_of(content, MOST_CALL_BYTES) else {
            return Ok(None);
        };
        let Some(file) = file_of(rest) else {
            return Ok(None);
        };
        match words_of(alloc, words) {
            Ok(Some(words)) => Ok(Some(Call { words, file })),
            Ok(None) => Ok(None),
            Err(AllocError) => Err(AllocError),
        }
    }
}

fn add_file(content: &mut Vec<u8>, file: Option<&[u8]>) -> Result<(), AllocError>
    ensures { OnOk result (content.new.items ≡ content.old.items ++ file_text (option_map (λ f. f.now) file.entry)) }
{
    if let Some(file) = file {
        content.push(1)?;
        content.extend_from_slice(file)?;
    }
    Ok(())
}

// The file after the words: `Some(None)` if no bytes are there, and `None` if they begin with anything but a
// 1.
fn file_of(text: &[u8]) -> Option<Option<&[u8]>>
    ensures found { IfSome result (λ file. text.now ≡ file_text (option_map (λ f. f.now) file)) }
    ensures none { IfNone result ((file : Option Bytes) → text.now ≡ file_text file → ⊥) }
{
    match text {
        [] => Some(None),
        [1, file @ ..] => Some(Some(file)),
        _ => None,
    }
}
