//! What a checked file holds.
ghost use Rattle.std.specs.Prelude.{◌≡◌};
ghost use Rattle.language.specs.Terms.{nodes};
ghost use Rattle.answers.specs.Approving.{contract_opened};
ghost use Rattle.approval.specs.Contents.{held, unsigned};

use crate::checked::Checked;
use contract_file::{File, ReadFile};
use openings::Openings;

impl Checked {
    /// A new place: a file of kind 1 with one entry, lost, signed on day 0.
    pub fn new() -> Checked
        ensures { held result ≡ unsigned }
    {
        Checked {
            openings: Openings::of(ReadFile::new()),
            day: 0,
        }
    }

    /// The file.
    pub fn file(&self) -> &File
        ensures { result.now ≡ self.now.openings.read.file }
    {
        self.openings.file()
    }

    /// What each entry opens to, with the file, for which the checked one is spent.
    pub fn into_openings(self) -> Openings
        ensures { result ≡ self.openings }
    {
        let Checked { openings, .. } = self;
        openings
    }

    /// The read file, for which the checked one is spent.
    pub fn into_read(self) -> ReadFile
        ensures { result ≡ self.openings.read }
    {
        self.openings.into_read()
    }

    /// The signing day.
    pub fn day(&self) -> u32
        ensures { result ≡ self.now.day }
    {
        self.day
    }

    /// How many nodes the contract has when it is opened on the signing day.
    pub fn nodes(&self) -> u16
        ensures { result ≡ nodes (contract_opened self.now.openings.read.file self.now.day) }
    {
        let contract = self.file().contract;
        self.openings.at(contract).size()
    }
}
