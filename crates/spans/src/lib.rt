//! How long the clause of each entry lasts at the least.
#![tactic(auto)]

mod passes;
mod rounds;
mod spans;

pub use rounds::entry_spans;
pub use spans::{Span, row_count, span_at};
