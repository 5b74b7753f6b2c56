//! What is due: the open steps of a term.
#![tactic(auto)]

mod items;
mod listing;

pub use listing::{ShortList, due_list};
