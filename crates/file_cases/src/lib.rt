//! Contract files, and what is told of them when they are read and checked: how they are written, and tests.
#![tactic(auto)]

mod asking;
#[cfg(test)]
mod cases;
mod writing;

pub use asking::check_as;
pub use writing::{Numbers, file_bytes, parts};
