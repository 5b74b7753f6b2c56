//! What the entries of a contract file mean, and what each of them opens to.
#![tactic(auto)]

mod known;
mod passes;
mod rounds;
mod shapes;

pub use known::Openings;
pub use passes::fill_from_last;
pub use rounds::{body, openings};
pub use shapes::{Followed, MOST_NODES, Shape, Tidied, shape_at};
