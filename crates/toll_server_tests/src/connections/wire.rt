//! A connection of memory.
use std::cell::Cell;
use std::io;
use std::io::{ErrorKind, Read, Write};
use toll_protocol::Stream;
use toll_server::{Listener, MOST_OPEN_CONNECTIONS};

/// What follows the last piece.
#[derive(Clone, Copy)]
pub enum Ends {
    Silent,
    Closed,
    Reset,
}

/// How much a write takes.
#[derive(Clone, Copy)]
pub enum Takes {
    All,
    /// One byte, and none with the next write.
    One,
    Nothing,
    Broken,
}

/// What a connection does. Its reply has this byte alone.
#[derive(Clone, Copy)]
pub struct Plan {
    pub listener: Listener,
    pub pieces: &'static [&'static [u8]],
    pub ends: Ends,
    pub takes: Takes,
    pub mark: u8,
}

/// How an office takes what the plant asks.
#[derive(Clone, Copy)]
pub struct Pace {
    /// How many turns it needs for a reply.
    pub turns: u64,
    /// How many milliseconds each of them takes but the first.
    pub milliseconds: u64,
}

/// What a network and its service have done.
#[derive(Drop)]
pub struct Log {
    pub pace: Pace,
    /// How many bytes were written, and whether one went to another client.
    pub replied: Cell<u64>,
    pub wrong: Cell<bool>,
    /// The milliseconds that have gone, and how many tasks are left to do.
    pub clock: Cell<u64>,
    pub tasks: Cell<u64>,
    /// The digit of the client of each turn, one after another.
    pub turns: Cell<u64>,
    /// How many close before they are accepted, ahead of all others.
    pub aborted: Cell<u64>,
    /// How often none can be accepted, after the first client.
    pub refused: Cell<u64>,
    /// How many may be connected at once.
    pub most: Cell<usize>,
    /// How many had been accepted when the listeners were closed, if they were.
    pub closed: Cell<Option<usize>>,
}

impl Log {
    /// Nothing was done, and the plant is answered at once.
    pub fn new() -> Self {
        Log::at(Pace {
            turns: 1,
            milliseconds: 0,
        })
    }

    /// Nothing was done, and the plant is answered at this pace.
    pub fn at(pace: Pace) -> Self {
        Log {
            pace,
            replied: Cell::new(0),
            wrong: Cell::new(false),
            clock: Cell::new(0),
            tasks: Cell::new(0),
            turns: Cell::new(0),
            aborted: Cell::new(0),
            refused: Cell::new(0),
            most: Cell::new(MOST_OPEN_CONNECTIONS),
            closed: Cell::new(None),
        }
    }

    /// The listeners are closed, after so many were accepted, unless they were before.
    pub fn close(&self, came: usize) {
        if self.closed.get().is_none() {
            self.closed.set(Some(came));
        }
    }

    /// A turn was for the client with this digit.
    pub fn note(&self, digit: u8) {
        let before = self.turns.get().saturating_mul(10);
        let turn = u64::from(digit.saturating_sub(b'0'));
        self.turns.set(before.saturating_add(turn));
    }

    /// So many milliseconds have gone.
    pub fn pass(&self, milliseconds: u64) {
        self.clock
            .set(self.clock.get().saturating_add(milliseconds));
    }
}

/// A connection by a plan. It would wait after each piece.
#[derive(Drop)]
pub struct Wire<'l> {
    plan: Plan,
    piece: usize,
    given: usize,
    is_full: bool,
    log: &'l Log,
}

impl<'l> Wire<'l> {
    /// Nothing was read or written yet.
    pub fn new(plan: Plan, log: &'l Log) -> Self {
        Wire {
            plan,
            piece: 0,
            given: 0,
            is_full: false,
            log,
        }
    }
}

impl Read for Wire<'_> {
    fn read(&mut self, buffer: &mut [u8]) -> io::Result<usize> {
        let Some(piece) = self.plan.pieces.get(self.piece) else {
            return match self.plan.ends {
                Ends::Silent => Err(ErrorKind::WouldBlock.into()),
                Ends::Closed => Ok(0),
                Ends::Reset => Err(ErrorKind::ConnectionReset.into()),
            };
        };
        let rest = piece.get(self.given..).unwrap_or(&[]);
        if rest.is_empty() {
            self.piece = self.piece.saturating_add(1);
            self.given = 0;
            return Err(ErrorKind::WouldBlock.into());
        }
        let n = rest.len().min(buffer.len());
        buffer[..n].copy_from_slice(&rest[..n]);
        self.given = self.given.saturating_add(n);
        Ok(n)
    }
}

impl Write for Wire<'_> {
    fn write(&mut self, bytes: &[u8]) -> io::Result<usize> {
        let n = match self.plan.takes {
            Takes::All => bytes.len(),
            Takes::One if self.is_full => 0,
            Takes::One => bytes.len().min(1),
            Takes::Nothing => 0,
            Takes::Broken => return Err(ErrorKind::BrokenPipe.into()),
        };
        self.is_full = n > 0;
        if n == 0 {
            return Err(ErrorKind::WouldBlock.into());
        }
        let is_its_own = bytes[..n].iter().all(|byte| *byte == self.plan.mark);
        self.log.wrong.set(self.log.wrong.get() || !is_its_own);
        self.log
            .replied
            .set(self.log.replied.get().saturating_add(n as u64));
        Ok(n)
    }

    fn flush(&mut self) -> io::Result<()> {
        Ok(())
    }
}

impl Stream for Wire<'_> {
    ghost use Rattle.std.specs.Prelude.{refl};

    ghost apart = { λ _. refl };
}
