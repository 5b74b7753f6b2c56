//! A contract file vetted for people: the answer of check on the first line, and then the file or the fault in words; and
//! what a contract comes to when it is opened.
#![tactic(auto)]

mod ahead;
mod reporting;
mod verdict;

pub use ahead::prospects;
pub use reporting::report;
