//! Kinds of record. A kind says which conditions it admits on the four fields of its records, which
//! day a record bears, whether a record meets conditions under a row and which row results, and it
//! names a specimen for conditions, a row and a day. Two kinds stand here, transfers and inspections.
#![tactic(auto)]

mod fields;
mod inspections;
mod interface;
mod rows;
mod transfers;

pub use fields::{Conditions, FIELDS, Test};
pub use inspections::{Inspection, Inspections};
pub use interface::{Kind, LAST_DAY};
pub use rows::{Filling, Row, SLOTS, Value, put};
pub use transfers::{Transfer, Transfers};
