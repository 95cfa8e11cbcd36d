//! The outcome of a record.
ghost use Rattle.std.specs.Prelude.{◌≡◌};
ghost use Rattle.toll_desk.specs.Translations.{meaning_of_plant_reply};
ghost use Rattle.toll_plant.specs.Outcomes.{is_outcome_accepted, is_fault_outcome, record_outcome};

use std::fmt;
use toll_base::Refusal;
use toll_desk::PlantReply;
use toll_keep::KeepFault;

/// The outcome of a record of a file of actuals.
#[derive(Clone, Copy, PartialEq, Eq)]
pub enum Outcome {
    Accepted,
    Repeated,
    Refused(Refusal),
    /// The record hasn't the fields of an actual.
    BadRecord,
    /// The keep met a fault. No later record acts.
    Fault(KeepFault),
}

impl Outcome {
    /// The outcome of an actual with this answer. No actual is answered with a text: such an answer would
    /// mean that the rows can't be trusted.
    pub(crate) fn of(reply: PlantReply) -> Self
        ensures { result ≡ record_outcome (meaning_of_plant_reply reply) }
    {
        match reply {
            PlantReply::Accepted => Outcome::Accepted,
            PlantReply::Repeated => Outcome::Repeated,
            PlantReply::Refused(why) => Outcome::Refused(why),
            PlantReply::Text(_) => Outcome::Fault(KeepFault::Damaged),
            PlantReply::Fault(fault) => Outcome::Fault(fault),
        }
    }

    /// Whether the record changed something.
    pub(crate) fn is_accepted(&self) -> bool
        ensures { result ≡ is_outcome_accepted self.now }
    {
        matches!(self, Outcome::Accepted)
    }

    /// Whether no later record acts.
    pub(crate) fn is_fault(&self) -> bool
        ensures { result ≡ is_fault_outcome self.now }
    {
        matches!(self, Outcome::Fault(_))
    }
}

impl fmt::Display for Outcome {
    ghost use Rattle.std.specs.Prelude.{Some};
    ghost use Rattle.toll_plant.specs.ImportTexts.{outcome_text};

    ghost output = { λ outcome. Some (outcome_text outcome) };

    fn fmt<W: fmt::Write>(&self, f: &mut fmt::Formatter<W>) -> fmt::Result {
        match self {
            Outcome::Accepted => f.write_str("accepted"),
            Outcome::Repeated => f.write_str("repeated"),
            Outcome::Refused(why) => {
                let code = why.code();
                write!(f, "refused {code} {why}")
            }
            Outcome::BadRecord => f.write_str("bad-record"),
            Outcome::Fault(fault) => {
                let name = fault.name();
                write!(f, "fault {name}")
            }
        }
    }
}
