//! The entries of a contract file, and how sixteen bytes are read as one.
#![tactic(auto)]

mod entries;
mod layout;
mod parts;

pub use entries::Entry;
pub use layout::{ENTRY_BYTES, decode, two_bytes};
pub use parts::Sort;
