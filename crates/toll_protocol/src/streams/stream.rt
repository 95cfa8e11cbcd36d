//! Connections.
use crate::streams::{Sink, Source};

/// A connection. The bytes that it takes are apart from those that it gives: no read changes the bytes that
/// it holds, nor whether a write of it has failed.
pub trait Stream: Source + Sink + Drop {
    ghost use Rattle.std.specs.Prelude.{◌≡◌};

    ghost apart: { (stream : Self) → Self.Source.write_side stream ≡ (Self.Sink.held stream, Self.Sink.has_failed stream) };
}
