//! The answers to a script, as they are printed.
ghost use Rattle.std.specs.Prelude.{◌≡◌, ◌++◌, IfOk, OnOk};
ghost use Rattle.toll_programs.specs.Printing as spec;

use std::alloc::{AllocError, Global};
use toll_base::Refusal;
use toll_desk::PlantReply;
use toll_keep::KeepFault;
use toll_wire::Answer;

/// The lines of the answers, in order: for a reply its status and its body, for the plant its answer. An `Err` if
/// there is no memory for them.
pub fn printed(alloc: Global, answers: &[Answer]) -> Result<Vec<u8>, AllocError>
    ensures { IfOk result (λ text. text.items ≡ spec.printed answers.now) }
{
    let mut text = Vec::new(alloc);
    for answer in answers {
        print_answer(alloc, &mut text, answer)?;
    }
    Ok(text)
}

fn print_answer(alloc: Global, text: &mut Vec<u8>, answer: &Answer) -> Result<(), AllocError>
    ensures { OnOk result (text.new.items ≡ text.old.items ++ spec.answer_lines answer.now) }
{
    match answer {
        Answer::Bytes(out) => print_reply(text, out.bytes()),
        Answer::Plant(reply) => print_plant_reply(alloc, text, reply),
    }
}

fn print_reply(text: &mut Vec<u8>, reply: &[u8]) -> Result<(), AllocError>
    ensures { OnOk result (text.new.items ≡ text.old.items ++ spec.reply_line reply.now) }
{
    text.extend_from_slice(status_of(reply))?;
    print_body(text, body_of(reply))?;
    text.extend_from_slice(b"\n")
}

// A space and the body, if it has bytes.
fn print_body(text: &mut Vec<u8>, body: &[u8]) -> Result<(), AllocError>
    ensures { OnOk result (text.new.items ≡ text.old.items ++ spec.shown_body body.now) }
{
    if body.is_empty() {
        return Ok(());
    }
    text.extend_from_slice(b" ")?;
    text.extend_from_slice(body)
}

/// The place of the status in a reply: after `HTTP/1.1 `.
const STATUS_BEGINS: usize = 9;

/// How many digits a status has.
const STATUS_LEN: usize = 3;

// The three digits after `HTTP/1.1 `.
fn status_of(reply: &[u8]) -> &[u8]
    ensures { result.now ≡ spec.status_of reply.now }
{
    let (_, behind) = reply.split_at(reply.len().min(STATUS_BEGINS));
    let (status, _) = behind.split_at(behind.len().min(STATUS_LEN));
    status
}

// The text after the first empty line.
fn body_of(reply: &[u8]) -> &[u8]
    ensures { result.now ≡ spec.body_of reply.now }
{
    let mut rest = reply;
    while let Some((_, others)) = rest.split_first() {
        if rest.starts_with(b"\r\n\r\n") {
            return &rest[4..];
        }
        rest = others;
    }
    rest
}

fn print_plant_reply(
    alloc: Global,
    text: &mut Vec<u8>,
    reply: &PlantReply,
) -> Result<(), AllocError>
    ensures { OnOk result (text.new.items ≡ text.old.items ++ spec.plant_reply_text reply.now) }
{
    match reply {
        PlantReply::Accepted => text.extend_from_slice(b"accepted\n"),
        PlantReply::Repeated => text.extend_from_slice(b"repeated\n"),
        PlantReply::Refused(refusal) => print_refusal(alloc, text, refusal),
        PlantReply::Text(lines) => text.extend_from_slice(lines),
        PlantReply::Fault(fault) => text.extend_from_slice(fault_line(*fault)),
    }
}

fn print_refusal(alloc: Global, text: &mut Vec<u8>, refusal: &Refusal) -> Result<(), AllocError>
    ensures { OnOk result (text.new.items ≡ text.old.items ++ spec.refusal_line refusal.now) }
{
    let line = refusal_text(alloc, refusal)?;
    text.extend_from_slice(line.as_bytes())
}

/// The line that reports a refusal: `refused`, its code and its title. An `Err` if there is no memory for it.
pub fn refusal_text(alloc: Global, refusal: &Refusal) -> Result<String, AllocError>
    ensures { IfOk result (λ line. line.bytes.items ≡ spec.refusal_line refusal.now) }
{
    let code = refusal.code();
    let title = refusal.title();
    format!(in alloc; "refused {code} {title}\n")
}

/// The line that reports a fault of the keep: `fault` and its name. It takes no memory.
pub fn fault_line(fault: KeepFault) -> &'static [u8]
    ensures { result.now ≡ spec.fault_line fault }
{
    match fault {
        KeepFault::Memory => b"fault Memory\n",
        KeepFault::Disk => b"fault Disk\n",
        KeepFault::Damaged => b"fault Damaged\n",
        KeepFault::Closed => b"fault Closed\n",
    }
}
