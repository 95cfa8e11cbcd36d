//! The base of the office: values, rows, all rows of one owner, refusals and decisions.
#![tactic(auto)]

mod actual_count;
mod bounded;
mod capacity;
mod decimal;
mod decision;
mod double_ended;
mod laws;
mod limits;
mod lot;
mod measure;
mod move_rows;
mod move_rows_iter;
mod movement;
mod moves;
mod name;
mod owner_key;
mod refusal;
mod request;
mod role;
mod row_tables;
mod rows;
mod slice;
mod state;
mod state_command;
mod table;
mod text;
mod unique_slice;
mod value;

pub use bounded::{
    Amount, BatchNo, Bounded, Day, MOST_AMOUNT, MOST_BATCHES, MOST_DAY, MOST_SEGMENTS, Segment,
    numbers_are_those_defined,
};
pub use capacity::{
    MOST_ACTUALS, MOST_LOTS, MOST_MATERIALS, MOST_MOVEMENTS, MOST_ORDERS, MOST_OWNERS,
    MOST_RECIPES, MOST_REQUIREMENTS, MOST_RESULTS, MOST_STOCK, MOST_SUBLOTS, MOST_TESTS,
    MOST_UNITS,
};
pub use decimal::number;
pub use decision::{Change, Decision};
pub use laws::limits_are_those_defined;
pub use limits::Limits;
pub use lot::{Disposition, Edge, LotId, Origin, lots_and_edges_are_ordered};
pub use measure::Measure;
pub use move_rows::MoveRows;
pub use move_rows_iter::MoveRowsIter;
pub use movement::{Move, MoveRow};
pub use name::Name;
pub use owner_key::OwnerKey;
pub use refusal::Refusal;
pub use request::Request;
pub use role::Role;
pub use rows::{
    BatchRow, LotRow, MaterialRow, OrderRow, OwnerRow, Placing, RecipeRow, RequirementRow,
    ResultRow, Row, SublotRow, TestRow, UnitRow, VoidRow,
};
pub use slice::Slice;
pub use state::State;
pub use state_command::StateCommand;
pub use table::{Keyed, Table};
pub use text::Text;
pub use unique_slice::UniqueSlice;
pub use value::{LEAST_VALUE, MOST_VALUE, Value};
