//! Streams of bytes that may report what was read, what was written and what failed: reading after the bytes
//! that have come, and writing a text at once or bit by bit.

mod laws;
mod read_status;
mod response_writer;
mod sink;
mod source;
mod stream;
mod write_status;
mod writing;

pub use laws::{a_plain_reader_reports_its_bytes, a_plain_writer_reports_its_bytes};
pub use read_status::ReadStatus;
pub use response_writer::ResponseWriter;
pub use sink::Sink;
pub use source::{Source, read_behind};
pub use stream::Stream;
pub use write_status::WriteStatus;
pub use writing::{WriteFault, write_whole};
