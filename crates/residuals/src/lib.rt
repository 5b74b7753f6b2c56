//! What a record leaves of a term. The kind marks the leaves that the record meets; by the marks alone, what is
//! left is weighed, and built if it fits.
#![tactic(auto)]

mod building;
mod conditions;
mod holding;
mod marked;
mod marks;
mod rests;
mod weighed;
mod weights;

pub use holding::hold;
