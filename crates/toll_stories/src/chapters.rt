//! Chapters of a story, as text.
use std::alloc::{AllocError, Global};

/// Chapters, one after another over one office.
///
/// A chapter has a line for what is asked, as [`say`](crate::say) takes it, and below it the reply: `= ` and a reply
/// without a line end, or `: ` and a line of the reply, again for each line. Where it is `accepted`, no reply is
/// written. A file's lines stand below its word, each behind `+ `. Empty lines don't count.
pub type Story = &'static [&'static str];

/// What is asked, and what is to be replied.
#[derive(Drop)]
pub struct Exchange {
    /// What is asked.
    pub request: String,
    reply: Option<String>,
}

impl Exchange {
    fn of(alloc: Global, request: &str) -> Result<Self, AllocError> {
        Ok(Exchange {
            request: String::from_str(alloc, request)?,
            reply: None,
        })
    }

    /// The reply that is wanted.
    pub fn reply(&self) -> &str {
        match &self.reply {
            Some(reply) => reply.as_str(),
            None => "accepted",
        }
    }

    // The reply goes on with this text, and this end.
    fn push_reply(&mut self, alloc: Global, text: &str, end: &str) -> Result<(), AllocError> {
        let mut reply = match self.reply.take() {
            Some(reply) => reply,
            None => String::new(alloc),
        };
        reply.push_str(text)?;
        reply.push_str(end)?;
        self.reply = Some(reply);
        Ok(())
    }

    // The file that is given has this line next.
    fn push_record(&mut self, record: &str) -> Result<(), AllocError> {
        if !self.request.as_str().contains(' ') {
            self.request.push_str(" ")?;
        }
        self.request.push_str(record)?;
        self.request.push_str("\n")
    }
}

/// What a chapter asks, each with the reply that is wanted.
pub fn exchanges_of(alloc: Global, chapter: &str) -> Result<Vec<Exchange>, AllocError> {
    let mut exchanges = Vec::new(alloc);
    for line in chapter.lines() {
        read_line(alloc, &mut exchanges, line)?;
    }
    Ok(exchanges)
}

// Reads the next line of a chapter.
fn read_line(alloc: Global, exchanges: &mut Vec<Exchange>, line: &str) -> Result<(), AllocError> {
    let text = line.get(2..).unwrap_or("");
    match (line.as_bytes().first(), exchanges.last_mut()) {
        (None, _) => Ok(()),
        (Some(b'='), Some(last)) => last.push_reply(alloc, text, ""),
        (Some(b':'), Some(last)) => last.push_reply(alloc, text, "\n"),
        (Some(b'+'), Some(last)) => last.push_record(text),
        _ => Ok(exchanges.push(Exchange::of(alloc, line)?)?),
    }
}
