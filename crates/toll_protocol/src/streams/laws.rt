//! Laws of streams: what plain readers and writers report.
ghost use Rattle.std.specs.Prelude.{◌≡◌};

use crate::streams::sink::Sink;
use crate::streams::source::Source;
use std::io::{Read, Write};

/// Any reader, as a source, reports the bytes that it reports as a reader.
pub fn a_plain_reader_reports_its_bytes<R: Read>()
    ensures { (reader : R) → ⟦<R as Source>⟧.unread reader ≡ R.remaining reader }
{}

/// Any writer, as a sink, reports the bytes that it reports as a writer.
pub fn a_plain_writer_reports_its_bytes<W: Write>()
    ensures { (writer : W) → ⟦<W as Sink>⟧.held writer ≡ W.contents writer }
{}
