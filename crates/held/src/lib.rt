//! A contract as it is held: its checked file with the ends that it can have, and the term that is left of it.
#![tactic(auto)]

mod foreseen;
mod held;
mod holding;

pub use foreseen::Foreseen;
pub use held::Held;
pub use terms::TooLarge;
