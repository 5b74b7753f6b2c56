//! A checked file with the ends that it can have.
ghost use Rattle.std.specs.Prelude.{ℕ, ◌≡◌, ◌≤◌, IfOk};
ghost use Rattle.language.specs.Terms.{nodes};
ghost use Rattle.horizon.specs.Foretelling.{Foretells};
ghost use Rattle.answers.specs.Approving.{contract_opened};

use approval::Checked;
use contract_file::File;
use horizon::{Horizon, Prospect};
use openings::Openings;
use std::alloc::{AllocError, Global};

/// A file that has passed all questions of check, with its signing day, what each entry opens to, and when each entry's
/// clause can end: made by `over` alone.
#[derive(Drop)]
pub struct Foreseen {
    pub(crate) prospect: Prospect,
    pub(crate) day: u32,
    ghost early: { day ≤ 65535 },
    ghost small: { nodes (contract_opened prospect.openings.read.file day) ≤ 256 },
}

impl Foreseen {
    /// Works the ends out, and spends the checked file. The ends by day of a file with calendar windows stand on the
    /// heap; no other file takes memory.
    pub fn over(heap: Global, checked: Checked) -> Result<Foreseen, AllocError>
        ensures same { IfOk result (λ f. f.prospect.openings.read.file ≡ checked.openings.read.file) }
        ensures on { IfOk result (λ f. f.day ≡ checked.day) }
    {
        let day = checked.day();
        let prospect = Prospect::over(heap, checked.into_openings())?;
        Ok(Foreseen { prospect, day })
    }

    /// What each entry opens to and when it can end, with the file.
    pub fn prospect(&self) -> &Prospect
        ensures { result.now ≡ self.now.prospect }
    {
        &self.prospect
    }

    /// What each entry opens to, with the file.
    pub fn openings(&self) -> &Openings
        ensures { result.now ≡ self.now.prospect.openings }
    {
        &self.prospect.openings
    }

    /// When each entry's clause can end.
    pub fn horizon(&self) -> &Horizon
        ensures same { result.now ≡ self.now.prospect.horizon }
        ensures foretold { Foretells self.now.prospect.openings.read.file result.now.spans result.now.rows.items }
    {
        &self.prospect.horizon
    }

    /// The file.
    pub fn file(&self) -> &File
        ensures { result.now ≡ self.now.prospect.openings.read.file }
    {
        self.prospect.openings.file()
    }

    /// The signing day.
    pub fn day(&self) -> u32
        ensures { result ≡ self.now.day }
    {
        self.day
    }

    /// How many nodes the contract has when it is opened on the signing day.
    // Kept beside that of `Checked`, which is spent on this: either is asked alone.
    pub fn nodes(&self) -> u16
        ensures { result ≡ nodes (contract_opened self.now.prospect.openings.read.file self.now.day) }
    {
        let contract = self.file().contract;
        self.prospect.openings.at(contract).size()
    }
}
