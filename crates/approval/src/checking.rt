//! Checking a file: reading and approving it in one.
ghost use Rattle.std.specs.Prelude.{◌≡◌, is_ok, if◌then◌else◌};
ghost use Rattle.contract_file.specs.Asking.{Answers};
ghost use Rattle.answers.specs.Approving.{checking};
ghost use Rattle.answers.specs.Computed.{computed};
ghost use Rattle.approval.specs.Contents.{held, contents};

use crate::approving::approve;
use crate::checked::Checked;
use contract_file::{Fault, ReadFile, read};
use kinds::Kind;
use openings::Openings;

/// Asks all questions of a file's bytes, in order. If all pass, the checked file is written whole into the caller's
/// place; otherwise the place stays as it was, and the answer is the first question that fails, with the lowest
/// entry at fault.
pub fn check<K: Kind>(place: &mut Checked, bytes: &[u8], kind: &K, day: u32) -> Result<(), Fault>
    ensures answer { Answers (checking (K.Kind.numbered kind.now) K.Kind.meaning.admits day bytes.now) 12 result }
    ensures value { result ≡ computed (K.Kind.numbered kind.now) K.Kind.meaning.admits day bytes.now }
    ensures after { held place.new ≡ (if is_ok result then contents bytes.now day else held place.old) }
{
    let mut file = ReadFile::new();
    read(&mut file, bytes)?;
    let shapes = approve(&file, kind, day)?;
    let openings = Openings { read: file, shapes };
    *place = Checked { openings, day };
    Ok(())
}
