//! What a file is known to be after the first questions.
ghost use Rattle.contract_file.specs.Asking.{Passed};
ghost use Rattle.contract_file.specs.Pointing.{Pointers};
ghost use Rattle.contract_file.specs.Sound.{Parsed};

use crate::files::File;

/// A file whose entries are listed, each at its number.
#[derive(Clone, Copy)]
pub(crate) struct ParsedFile {
    pub(crate) file: File,
    ghost parsed: { ∥ Parsed file ∥₁ },
}

/// A parsed file whose pointers lead up, each where it should.
#[derive(Clone, Copy)]
pub(crate) struct LeadingFile<'a> {
    pub(crate) file: &'a File,
    ghost parsed: { ∥ Parsed file.now ∥₁ },
    ghost pointers: { ∥ Passed (Pointers file.now) ∥₁ },
}
