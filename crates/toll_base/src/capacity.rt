//! How many rows of each kind the office keeps. Code and definitions cite these numbers.

/// The materials of an owner.
pub const MOST_MATERIALS: usize = 200;

/// The tests of an owner, of all its materials together.
pub const MOST_TESTS: usize = 2_000;

/// The recipes of an owner.
pub const MOST_RECIPES: usize = 200;

/// The requirements of an owner, of all its recipes together.
pub const MOST_REQUIREMENTS: usize = 2_000;

/// The orders of an owner, cancelled ones included.
pub const MOST_ORDERS: usize = 2_000;

/// The lots of an owner.
pub const MOST_LOTS: usize = 5_000;

/// The sublots of an owner, of all its lots together.
pub const MOST_SUBLOTS: usize = 20_000;

/// The movements of an owner, voided ones included.
pub const MOST_MOVEMENTS: usize = 20_000;

/// The results of an owner, of all tests of all its lots together.
pub const MOST_RESULTS: usize = 20_000;

/// The actuals of one batch, voided ones included.
pub const MOST_ACTUALS: u64 = 200;

/// The amount in one sublot: every movement of an owner, each of the greatest amount.
pub const MOST_STOCK: u64 = 20_000_000_000_000;

/// The owners of the plant, besides HOUSE.
pub const MOST_OWNERS: usize = 64;

/// The units of the plant.
pub const MOST_UNITS: usize = 200;
