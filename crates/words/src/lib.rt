//! A contract file in words: the names of fields, an entry with the chain that hangs on it, and why a file is refused.
#![tactic(auto)]

mod entry_words;
mod names;
mod reason;
mod test_words;

pub use entry_words::EntryWords;
pub use names::Names;
pub use reason::{Reason, byte};
