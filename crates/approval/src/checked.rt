//! A checked file.
ghost use Rattle.std.specs.Prelude.{ℕ, ◌≤◌};
ghost use Rattle.language.specs.Terms.{nodes};
ghost use Rattle.answers.specs.Approving.{contract_opened};

use openings::Openings;

/// A file that has passed all questions of check: made by `new`, and filled by `check` alone.
/// With it stand what each entry opens to, and the signing day.
#[derive(Drop)]
pub struct Checked {
    pub(crate) openings: Openings,
    pub(crate) day: u32,
    ghost early: { day ≤ 65535 },
    ghost small: { nodes (contract_opened openings.read.file day) ≤ 256 },
}
