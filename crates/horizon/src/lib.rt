//! The earliest end of each entry's clause, by its base day.
#![tactic(auto)]

mod horizon;
mod prospect;

pub use horizon::{DAYS, Horizon};
pub use prospect::Prospect;
