//! Approving a file for a kind and a signing day, and checking one: reading it, and then approving it.
#![tactic(auto)]

mod approving;
mod checked;
mod checking;
mod contents;

pub use approving::approve;
pub use checked::Checked;
pub use checking::check;
