//! The lines of words that commands are written in.
use crate::argument::{Argument, ArgumentKind};
use crate::command::CommandName;

/// The words of a command: its name, and its values in order.
#[derive(Clone, Copy)]
pub struct Line<'a> {
    pub name: &'a str,
    pub command: CommandName,
    pub values: &'a [Argument<'a>],
}

// A value of this name, which is read so.
macro_rules! argument {
    ($name:literal, $reading:ident) => {
        Argument {
            name: $name,
            reading: ArgumentKind::$reading,
        }
    };
}

// The words of this command.
macro_rules! line_of {
    ($name:literal => $command:ident, $($value:ident)*) => {
        Line {
            name: $name,
            command: CommandName::$command,
            values: &[$($value),*],
        }
    };
}

const OWNER: Argument<'static> = argument!("OWNER", Name);

const OWNER_KEY: Argument<'static> = argument!("KEY", OwnerKey);

const UNIT: Argument<'static> = argument!("UNIT", Name);

const MATERIAL: Argument<'static> = argument!("MATERIAL", Name);

const MEASURE: Argument<'static> = argument!("MEASURE", Measure);

const TEST: Argument<'static> = argument!("TEST", Name);

const LOW: Argument<'static> = argument!("LOW", Value);

const HIGH: Argument<'static> = argument!("HIGH", Value);

const RECIPE: Argument<'static> = argument!("RECIPE", Name);

const SEGMENTS: Argument<'static> = argument!("SEGMENTS", Segment);

const SEGMENT: Argument<'static> = argument!("SEGMENT", Segment);

const USE: Argument<'static> = argument!("USE", Role);

const SOURCE: Argument<'static> = argument!("SOURCE", Name);

const AMOUNT: Argument<'static> = argument!("AMOUNT", Amount);

const ORDER: Argument<'static> = argument!("ORDER", Name);

const BATCHES: Argument<'static> = argument!("BATCHES", BatchNo);

const BATCH: Argument<'static> = argument!("BATCH", BatchNo);

const COMMAND: Argument<'static> = argument!("COMMAND", StateCommand);

const KEY: Argument<'static> = argument!("KEY", Name);

const LOT: Argument<'static> = argument!("LOT", Name);

const SUBLOT: Argument<'static> = argument!("SUBLOT", Name);

const TARGET: Argument<'static> = argument!("TARGET", Name);

const DAY: Argument<'static> = argument!("DAY", Day);

const VALUE: Argument<'static> = argument!("VALUE", Value);

const LOT_OWNER: Argument<'static> = argument!("LOT-OWNER", Name);

const WAY: Argument<'static> = argument!("WAY", Way);

/// An actual of a batch.
pub const ACTUAL: Line<'static> = line_of!(
    "actual" => Actual, KEY OWNER ORDER BATCH SEGMENT USE MATERIAL LOT_OWNER LOT SUBLOT AMOUNT DAY
);

/// Every command of the plant.
pub static LINES: [Line<'static>; 25] = [
    line_of!("owner-add" => OwnerAdd, OWNER OWNER_KEY),
    line_of!("unit-add" => UnitAdd, UNIT),
    line_of!("material-add" => MaterialAdd, OWNER MATERIAL MEASURE),
    line_of!("test-add" => TestAdd, OWNER MATERIAL TEST LOW HIGH),
    line_of!("recipe-add" => RecipeAdd, OWNER RECIPE SEGMENTS),
    line_of!("require" => Require, OWNER RECIPE SEGMENT USE SOURCE MATERIAL AMOUNT),
    line_of!("order" => Order, ORDER RECIPE BATCHES),
    line_of!("cancel" => Cancel, ORDER),
    line_of!("open" => Open, OWNER ORDER UNIT),
    line_of!("do" => Do, OWNER ORDER BATCH COMMAND),
    line_of!("close" => Close, OWNER ORDER BATCH),
    line_of!("receive" => Receive, OWNER KEY MATERIAL LOT SUBLOT AMOUNT DAY),
    line_of!("split" => Split, OWNER KEY LOT SUBLOT TARGET AMOUNT DAY),
    line_of!("ship" => Ship, OWNER KEY LOT SUBLOT AMOUNT DAY),
    line_of!("scrap" => Scrap, OWNER KEY LOT SUBLOT AMOUNT DAY),
    line_of!("result" => Result, OWNER LOT TEST VALUE DAY),
    line_of!("release" => Release, LOT),
    line_of!("reject" => Reject, LOT),
    ACTUAL,
    line_of!("void" => Void, OWNER KEY),
    line_of!("orders" => Orders, OWNER),
    line_of!("stock" => Stock, OWNER),
    line_of!("batch" => Batch, OWNER ORDER BATCH),
    line_of!("trace" => Trace, OWNER LOT WAY),
    line_of!("recall" => Recall, OWNER LOT),
];
