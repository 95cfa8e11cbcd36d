//! What an operator sees of a server's faults.
ghost use Rattle.std.specs.Prelude.{◌≡◌, ◌≢◌, List, ◌∷◌, Option, None, option_map};
ghost use Rattle.toll_base.specs.Bytes.{Bytes};
ghost use Rattle.toll_files.specs.Faults.{fault_note_text, lines_of_change, serving_fault_name};
ghost use Rattle.toll_files.specs.declared.fault_log.FaultNote.TheVariants as note;

use crate::notes::Notes;
use crate::office_fault::OfficeFault;
use std::fmt;

/// A fault that a server reports to its operator.
#[derive(Clone, Copy, Debug, PartialEq, Eq)]
pub enum ServingFault {
    /// The office was not opened.
    Office(OfficeFault),
    /// A request or call met a fault.
    Unavailable,
    /// The socket file of the plant could not be made.
    PlantSocket,
    /// There was no descriptor, or no memory, to take a connection.
    NoResources,
}

impl ServingFault {
    /// The fault's name, as the operator's log has it.
    pub fn name(self) -> &'static str
        ensures { result.now ≡ serving_fault_name self }
    {
        match self {
            ServingFault::Office(fault) => fault.name(),
            ServingFault::Unavailable => "Unavailable",
            ServingFault::PlantSocket => "Door",
            ServingFault::NoResources => "Room",
        }
    }
}

/// A line of the operator's log.
#[derive(Clone, Copy, Debug, PartialEq, Eq)]
pub enum FaultNote {
    /// The server had this fault, and has it no more.
    Ended(ServingFault),
    /// The server has this fault from now on.
    Began(ServingFault),
}

impl FaultNote {
    /// The lines of a change from one fault to another: that the first ended, and that the second began. A fault that
    /// there isn't has no line.
    pub fn of_change(
        was: Option<ServingFault>,
        found: Option<ServingFault>,
    ) -> (Option<FaultNote>, Option<FaultNote>)
        ensures { result ≡ (option_map note.Ended was, option_map note.Began found) }
    {
        (was.map(FaultNote::Ended), found.map(FaultNote::Began))
    }
}

impl fmt::Display for FaultNote {
    ghost use Rattle.std.specs.Prelude.{Some};
    ghost use Rattle.toll_files.specs.Faults.{fault_note_text};

    ghost output = { λ note. Some (fault_note_text note) };

    fn fmt<W: fmt::Write>(&self, f: &mut fmt::Formatter<W>) -> fmt::Result {
        let (fault, event) = match self {
            FaultNote::Ended(fault) => (fault, " ended"),
            FaultNote::Began(fault) => (fault, " began"),
        };
        f.write_str("fault ")?;
        f.write_str(fault.name())?;
        f.write_str(event)
    }
}

/// What takes an operator's lines.
pub trait OperatorLines {
    // The lines that it was given, the latest first, if they are known.
    ghost given: { Self → Option (List Bytes) } = { λ _. None };

    /// Writes the line of this note, or drops and counts it if that would have to wait.
    fn give(&mut self, rt: &HostRuntime, note: FaultNote)
        ensures { given self.new ≡ option_map (λ lines. fault_note_text note ∷ lines) (given self.old) };
}

impl OperatorLines for Notes {
    fn give(&mut self, rt: &HostRuntime, note: FaultNote) {
        self.write(rt, note);
    }
}

/// The fault that a server has now, if it has one.
#[derive(Clone, Copy, Debug, PartialEq, Eq)]
pub struct FaultLog<N = Notes> {
    pub fault: Option<ServingFault>,
    notes: N,
}

impl FaultLog<Notes> {
    /// The log of a server that has no fault yet.
    pub fn new() -> Self
        ensures { result.fault ≡ None }
    {
        FaultLog {
            fault: None,
            notes: Notes::new(),
        }
    }
}

impl<N: OperatorLines> FaultLog<N> {
    /// Notes the fault that the server has now, or that it has none. If that is new, writes a line on
    /// standard error: that the fault before it ended, and that this one began.
    pub fn update(&mut self, rt: &HostRuntime, found: Option<ServingFault>)
        ensures noted { self.new.fault ≡ found }
        ensures same { self.old.fault ≡ found → N.given self.new.notes ≡ N.given self.old.notes }
        ensures told { self.old.fault ≢ found → N.given self.new.notes ≡ option_map (lines_of_change self.old.fault found) (N.given self.old.notes) }
    {
        if self.fault == found {
            return;
        }
        let (ended, began) = FaultNote::of_change(self.fault, found);
        if let Some(note) = ended {
            self.notes.give(rt, note);
        }
        if let Some(note) = began {
            self.notes.give(rt, note);
        }
        self.fault = found;
    }
}
