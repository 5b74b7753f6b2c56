//! A file that is known to be sound.
ghost use Rattle.std.specs.Prelude.{◌≡◌};
ghost use Rattle.contract_file.specs.Fresh.{fresh};
ghost use Rattle.contract_file.specs.Sound.{Sound};

use crate::files::File;

/// A file that has passed the questions of reading: made by `new`, and filled by `read` alone.
#[derive(Drop)]
pub struct ReadFile {
    pub(crate) file: File,
    ghost sound: { ∥ Sound file ∥₁ },
}

impl ReadFile {
    /// A file of kind 1 with one entry, lost.
    pub fn new() -> ReadFile
        ensures { result.file ≡ fresh }
    {
        ReadFile { file: File::new() }
    }

    /// The file that it holds.
    pub fn file(&self) -> &File
        ensures same { result.now ≡ self.now.file }
        ensures sound { ∥ Sound result.now ∥₁ }
    {
        &self.file
    }
}
