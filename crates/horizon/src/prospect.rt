//! What is known of a file's clauses before any record comes.
ghost use Rattle.std.specs.Prelude.{◌≡◌, IfOk};
ghost use Rattle.horizon.specs.Foretelling.{Foretells};

use crate::horizon::Horizon;
use openings::Openings;
use std::alloc::{AllocError, Global};

/// A file with what each of its entries opens to, and when each entry's clause can end.
#[derive(Drop)]
pub struct Prospect {
    pub openings: Openings,
    pub horizon: Horizon,
    ghost foretold: { ∥ Foretells openings.read.file horizon.spans horizon.rows.items ∥₁ },
}

impl Prospect {
    /// Works the ends out. Those by day of a file with calendar windows stand on the heap; no other file takes memory.
    pub fn over(heap: Global, openings: Openings) -> Result<Prospect, AllocError>
        ensures { IfOk result (λ p. p.openings ≡ openings) }
    {
        let horizon = Horizon::over(heap, openings.read())?;
        Ok(Prospect { openings, horizon })
    }
}
