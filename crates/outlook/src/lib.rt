//! The earliest end of a term at a clock.
#![tactic(auto)]

mod ahead;
mod looking;
mod outlooks;

pub use looking::{end_day, end_from, look_ahead, look_from};
pub use outlooks::Outlook;
