//! Days that may be absent, and the window of a step: on which days a record may meet it.
#![tactic(auto)]

mod absent;
mod windows;

pub use absent::{day_after, earlier, later};
pub use windows::{Counted, Window};
