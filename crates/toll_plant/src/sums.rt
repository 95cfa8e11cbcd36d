//! How many records have which outcome.
ghost use Rattle.std.specs.Prelude.{◌≡◌, count_by};
ghost use Rattle.toll_plant.specs.ImportTexts.{is_bad_record, is_refused, is_repeated};
ghost use Rattle.toll_plant.specs.Outcomes.{is_outcome_accepted, is_fault_outcome};

use crate::outcome::Outcome;
use crate::report::ImportLine;
use std::fmt;

// How many of the lines have such an outcome.
macro_rules! count {
    ($lines:expr, $outcome:pat) => {
        $lines
            .iter()
            .filter(|line| matches!(line.outcome, $outcome))
            .count()
    };
}

/// How many of some lines have each outcome.
#[derive(Clone, Copy)]
pub struct Sums {
    pub accepted: usize,
    pub repeated: usize,
    pub refused: usize,
    pub bad: usize,
    pub faults: usize,
}

impl Sums {
    /// The sums over these lines.
    pub fn of(lines: &[ImportLine]) -> Self
        ensures accepted { result.accepted ≡ count_by (λ l. is_outcome_accepted l.outcome) lines.now }
        ensures repeated { result.repeated ≡ count_by (λ l. is_repeated l.outcome) lines.now }
        ensures refused { result.refused ≡ count_by (λ l. is_refused l.outcome) lines.now }
        ensures bad { result.bad ≡ count_by (λ l. is_bad_record l.outcome) lines.now }
        ensures faults { result.faults ≡ count_by (λ l. is_fault_outcome l.outcome) lines.now }
    {
        Sums {
            accepted: accepted(lines),
            repeated: repeated(lines),
            refused: refused(lines),
            bad: bad(lines),
            faults: faults(lines),
        }
    }
}

impl fmt::Display for Sums {
    ghost use Rattle.std.specs.Prelude.{Some};
    ghost use Rattle.toll_plant.specs.ImportTexts.{sums_text};

    ghost output = { λ s. Some (sums_text s) };

    fn fmt<W: fmt::Write>(&self, f: &mut fmt::Formatter<W>) -> fmt::Result {
        let Sums {
            accepted,
            repeated,
            refused,
            bad,
            faults,
        } = *self;
        write!(
            f,
            "accepted {accepted} repeated {repeated} refused {refused} bad {bad} fault {faults}"
        )
    }
}

fn accepted(lines: &[ImportLine]) -> usize
    ensures { result ≡ count_by (λ l. is_outcome_accepted l.outcome) lines.now }
{
    count!(lines, Outcome::Accepted)
}

fn repeated(lines: &[ImportLine]) -> usize
    ensures { result ≡ count_by (λ l. is_repeated l.outcome) lines.now }
{
    count!(lines, Outcome::Repeated)
}

fn refused(lines: &[ImportLine]) -> usize
    ensures { result ≡ count_by (λ l. is_refused l.outcome) lines.now }
{
    count!(lines, Outcome::Refused(_))
}

fn bad(lines: &[ImportLine]) -> usize
    ensures { result ≡ count_by (λ l. is_bad_record l.outcome) lines.now }
{
    count!(lines, Outcome::BadRecord)
}

fn faults(lines: &[ImportLine]) -> usize
    ensures { result ≡ count_by (λ l. is_fault_outcome l.outcome) lines.now }
{
    count!(lines, Outcome::Fault(_))
}
