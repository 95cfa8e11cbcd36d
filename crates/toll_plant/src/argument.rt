//! The values of a command, and how each is read.
ghost use Rattle.std.specs.Prelude.{◌≡◌, pos, neg_ℤ, nat_abs, option_map};
ghost use Rattle.toll_base.specs.Bytes.{same_bytes};
ghost use Rattle.toll_base.specs.declared.value.TheConstants.{LEAST_VALUE, MOST_VALUE};
ghost use Rattle.toll_plant.specs.Readings.{number_within, read_as, role_of, value_of, way_of};

use toll_base::{
    Amount, BatchNo, Bounded, Day, Measure, Name, OwnerKey, Refusal, Role, Segment, StateCommand,
    Value, number,
};
use toll_trace::Way;

/// A value of a command: its name, and how it is read.
#[derive(Clone, Copy)]
pub struct Argument<'a> {
    pub name: &'a str,
    pub reading: ArgumentKind,
}

/// How a value is read.
#[derive(Clone, Copy)]
pub enum ArgumentKind {
    Name,
    OwnerKey,
    Measure,
    Role,
    Way,
    StateCommand,
    Amount,
    Day,
    Segment,
    BatchNo,
    Value,
}

/// A value that was read.
#[derive(Clone, Copy)]
pub enum ArgumentValue {
    Name(Name),
    OwnerKey(OwnerKey),
    Measure(Measure),
    Role(Role),
    Way(Way),
    StateCommand(StateCommand),
    Amount(Amount),
    Day(Day),
    Segment(Segment),
    BatchNo(BatchNo),
    Value(Value),
}

// The result of these values: `None` if they aren't values of these kinds, in this order.
macro_rules! from_values {
    ($values:expr, [$($value:ident: $kind:ident),*] => $made:expr) => {
        match *$values {
            [$($crate::argument::ArgumentValue::$kind($value)),*] => Some($made),
            _ => None,
        }
    };
    ($values:expr => $command:ident { $($value:ident: $kind:ident),* }) => {
        from_values!($values, [$($value: $kind),*] => toll_desk::PlantCmd::$command { $($value),* })
    };
}

pub(crate) use from_values;

// The greatest size of a value of a test.
const MOST_SIZE: u64 = 1_000_000_000;

impl ArgumentKind {
    /// The value that these bytes write: [`Refusal::BadName`] for bytes that are no name, key, measure or
    /// word of their kind, [`Refusal::BadAmount`] for bytes that are no number or a number out of its bounds.
    pub fn read(self, word: &[u8]) -> Result<ArgumentValue, Refusal>
        ensures { result ≡ read_as self word.now }
    {
        match self {
            ArgumentKind::Name => Ok(ArgumentValue::Name(Name::parse(word)?)),
            ArgumentKind::OwnerKey => Ok(ArgumentValue::OwnerKey(OwnerKey::parse(word)?)),
            ArgumentKind::Measure => Ok(ArgumentValue::Measure(Measure::parse(word)?)),
            ArgumentKind::Role => Ok(ArgumentValue::Role(role_of(word).ok_or(Refusal::BadName)?)),
            ArgumentKind::Way => Ok(ArgumentValue::Way(way_of(word).ok_or(Refusal::BadName)?)),
            ArgumentKind::StateCommand => Ok(ArgumentValue::StateCommand(StateCommand::read(
                word,
            ).ok_or(Refusal::BadName)?)),
            ArgumentKind::Amount => Ok(ArgumentValue::Amount(bounded(word).ok_or(
                Refusal::BadAmount,
            )?)),
            ArgumentKind::Day => Ok(ArgumentValue::Day(bounded(word).ok_or(Refusal::BadAmount)?)),
            ArgumentKind::Segment => Ok(ArgumentValue::Segment(bounded(word).ok_or(
                Refusal::BadAmount,
            )?)),
            ArgumentKind::BatchNo => Ok(ArgumentValue::BatchNo(bounded(word).ok_or(
                Refusal::BadAmount,
            )?)),
            ArgumentKind::Value => Ok(ArgumentValue::Value(value_of(word).ok_or(
                Refusal::BadAmount,
            )?)),
        }
    }
}

// The role of a material: it is used or made.
fn role_of(word: &[u8]) -> Option<Role>
    ensures { result ≡ role_of word.now }
{
    if is_word(word, "consumed") {
        Some(Role::Consumed)
    } else if is_word(word, "produced") {
        Some(Role::Produced)
    } else {
        None
    }
}

// The direction of a trace.
fn way_of(word: &[u8]) -> Option<Way>
    ensures { result ≡ way_of word.now }
{
    if is_word(word, "back") {
        Some(Way::Back)
    } else if is_word(word, "forward") {
        Some(Way::Forward)
    } else {
        None
    }
}

fn is_word(bytes: &[u8], word: &str) -> bool
    ensures { result ≡ same_bytes bytes.now word.now }
{
    bytes.cmp(word.as_bytes()).is_eq()
}

// The number, within its bounds.
fn bounded<const LEAST: u64, const MOST: u64>(word: &[u8]) -> Option<Bounded<LEAST, MOST>>
    ensures { result ≡ number_within LEAST MOST word.now }
{
    let number = number(word)?;
    Bounded::new(number).ok()
}

// The value of a test: a negative one has `M` before its size.
fn value_of(word: &[u8]) -> Option<Value>
    ensures { result ≡ value_of word.now }
{
    match word.split_first() {
        None => None,
        Some((b'M', size)) => negative(size),
        Some(_) => positive(word),
    }
}

// The value below 0 of this size.
fn negative(size: &[u8]) -> Option<Value>
    ensures { result ≡ option_map (λ n. neg_ℤ (pos n)) (number_within 1 (nat_abs LEAST_VALUE) size.now) }
{
    let size: Bounded<1, MOST_SIZE> = bounded(size)?;
    Value::new(-(size.get() as i64)).ok()
}

// The value from 0 on of this size.
fn positive(size: &[u8]) -> Option<Value>
    ensures { result ≡ option_map pos (number_within 0 (nat_abs MOST_VALUE) size.now) }
{
    let size: Bounded<0, MOST_SIZE> = bounded(size)?;
    Value::new(size.get() as i64).ok()
}
