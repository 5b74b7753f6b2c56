//! Terms as tables of nodes, and how a clause opens into one.
#![tactic(auto)]

mod filling;
mod nodes;
mod opening;
mod plans;
mod too_large;

pub use nodes::{Node, Table};
pub use opening::{open_clause, open_contract};
pub use too_large::TooLarge;
