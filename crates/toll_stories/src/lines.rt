//! Lines of what is asked, and what is said to each.
use crate::chapters::{Exchange, exchanges_of};
use crate::commands::plant_cmd;
use crate::fakes::read_pieces;
use crate::http::{reply_said, request_of};
use crate::said::{plant_said, said_text};
use std::alloc::{AllocError, Global};
use std::test::Fail;
use toll_desk::plant_do;
use toll_keep::{Keep, MemKeep};
use toll_plant::{import_actuals, import_text};
use toll_wire::answer;

/// The first record of a file of actuals, with its line end.
pub const HEADER: &str =
    "key,owner,order,batch,segment,use,material,lot_owner,lot,sublot,amount,day\n";

/// What is said to the line. An `Err` means that there was no memory.
///
/// An owner's line begins with `>`, its name and its key, and then has the method, the target and, if there is
/// one, the body; what is said to it is the status and the body of the reply. A file of actuals follows `file`,
/// and the records of one, without its header, follow `records`. Each other line has the plant's words, to which
/// `unread` is said if they are no command's.
pub fn say<K: Keep>(alloc: Global, keep: &mut K, line: &str) -> Result<String, AllocError> {
    match line.split_once(' ') {
        Some((">", _)) => say_to_owner(alloc, keep, line),
        Some(("file", file)) => say_to_file(alloc, keep, file.as_bytes()),
        Some(("records", records)) => say_to_records(alloc, keep, records),
        _ => say_to_plant(alloc, keep, line),
    }
}

// The request comes in pieces, all of it.
fn say_to_owner<K: Keep>(alloc: Global, keep: &mut K, line: &str) -> Result<String, AllocError> {
    let Some(bytes) = request_of(alloc, line)? else {
        return String::from_str(alloc, "unread");
    };
    match read_pieces(alloc, &bytes, 7, false) {
        Ok(came) if came.as_slice() == bytes.as_slice() => {
            reply_said(alloc, answer(alloc, keep, &came).bytes())
        }
        _ => String::from_str(alloc, "unread"),
    }
}

fn say_to_records<K: Keep>(
    alloc: Global,
    keep: &mut K,
    records: &str,
) -> Result<String, AllocError> {
    let file = format!(in alloc; "{HEADER}{records}")?;
    say_to_file(alloc, keep, file.as_bytes())
}

fn say_to_plant<K: Keep>(alloc: Global, keep: &mut K, line: &str) -> Result<String, AllocError> {
    let words: Vec<&str> = line.split(' ').collect(alloc)?;
    match plant_cmd(alloc, &words)? {
        Some(command) => plant_said(alloc, &plant_do(alloc, keep, &command)),
        None => String::from_str(alloc, "unread"),
    }
}

/// What is said to a file of actuals: the text of its import, or the word of the fault.
pub fn say_to_file<K: Keep>(
    alloc: Global,
    keep: &mut K,
    file: &[u8],
) -> Result<String, AllocError> {
    match import_actuals(alloc, keep, file) {
        Ok(report) => {
            let text = import_text(alloc, &report)?;
            said_text(alloc, &text)
        }
        Err(fault) => format!(in alloc; "{fault}"),
    }
}

/// Whether a chapter's replies are just those that it has, over this keep. An `Err` means that there was no
/// memory.
pub fn are_said<K: Keep>(alloc: Global, keep: &mut K, chapter: &str) -> Result<bool, AllocError> {
    for exchange in &exchanges_of(alloc, chapter)? {
        if say(alloc, keep, exchange.request.as_str())?.as_str() != exchange.reply() {
            return Ok(false);
        }
    }
    Ok(true)
}

// Fails with the reply, if that isn't the wanted one.
fn check_exchange<K: Keep>(alloc: Global, keep: &mut K, exchange: &Exchange) -> Result<(), Fail> {
    let request = exchange.request.as_str();
    let said = say(alloc, keep, request)?;
    if said.as_str() == exchange.reply() {
        return Ok(());
    }
    Err(format!(in alloc; "{request}: {said}")?.into())
}

/// Fails if one of a chapter's replies is another one, over this keep.
pub fn check_chapter<K: Keep>(alloc: Global, keep: &mut K, chapter: &str) -> Result<(), Fail> {
    for exchange in &exchanges_of(alloc, chapter)? {
        check_exchange(alloc, keep, exchange)?;
    }
    Ok(())
}

/// The same along chapters.
pub fn check_said_over<K: Keep>(
    alloc: Global,
    keep: &mut K,
    chapters: &[&str],
) -> Result<(), Fail> {
    for chapter in chapters {
        check_chapter(alloc, keep, chapter)?;
    }
    Ok(())
}

/// The same over an empty office that is kept in lists.
pub fn check_said(alloc: Global, chapters: &[&str]) -> Result<(), Fail> {
    check_said_over::<MemKeep>(alloc, &mut MemKeep::new(alloc), chapters)
}
