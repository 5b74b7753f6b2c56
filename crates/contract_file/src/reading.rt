//! Reading a contract file: the questions 1 to 7, asked in order.
ghost use Rattle.std.specs.Prelude.{◌≡◌, ℕ, ◌+◌, ◌*◌, ◌≤◌, length, is_ok, IfOk, if◌then◌else◌};
ghost use Rattle.contract_file.specs.declared.faults.Fault.TheVariants.{Unlisted};
ghost use Rattle.contract_file.specs.Asking.{Asked, Answers};
ghost use Rattle.contract_file.specs.Files.{count_of, table_of, decoded};
ghost use Rattle.contract_file.specs.Questions.{RightLength, EntriesListed, reading};
ghost use Rattle.entries.specs.Parts.{at, Listed};

use crate::calls::ask_calls;
use crate::chains::ask_chains;
use crate::faults::Fault;
use crate::files::{File, MOST_ENTRIES, PLACES};
use crate::leading::ParsedFile;
use crate::read_file::ReadFile;
use crate::windows::ask_windows;
use entries::{ENTRY_BYTES, Entry, decode, two_bytes};

/// How many bytes the head has.
pub const HEAD_BYTES: usize = 8;

/// The bytes of the longest file: a head, and 256 entries of 16.
pub const FILE_BYTES: usize = HEAD_BYTES + ENTRY_BYTES * MOST_ENTRIES as usize;

/// Reads the entries behind the head into a table.
fn table(bytes: &[u8]) -> Result<[Entry; PLACES], Fault>
    requires { RightLength bytes.now }
    ensures answer { Asked (EntriesListed bytes.now) Unlisted result }
    ensures value { IfOk result (λ es. es ≡ table_of bytes.now) }
    ensures listed { IfOk result (λ es. (i : ℕ) → Listed (at es i)) }
{
    let mut entries = [Entry::Lost; PLACES];
    for (i, entry) in bytes[HEAD_BYTES..].chunks_exact(ENTRY_BYTES).enumerate() {
        entries[i + 1] = decode(entry).ok_or(Fault::Unlisted(i as u16 + 1))?;
    }
    Ok(entries)
}

/// Takes a file apart, and asks of it what can be asked before its entries are known.
fn parse(bytes: &[u8]) -> Result<ParsedFile, Fault>
    ensures answer { Answers (reading bytes.now) 4 result }
    ensures value { IfOk result (λ parsed. parsed.file ≡ decoded bytes.now) }
{
    let [kind, version, n1, n2, t1, t2, c1, c2, rest @ ..] = bytes else {
        return Err(Fault::Length);
    };
    let count = two_bytes(*n1, *n2);
    if !(1..=MOST_ENTRIES).contains(&count) || rest.len() != ENTRY_BYTES * usize::from(count) {
        return Err(Fault::Length);
    }
    if *version != 1 {
        return Err(Fault::Version);
    }
    let entries = table(bytes)?;
    let file = File {
        kind: *kind,
        count,
        templates: two_bytes(*t1, *t2),
        contract: two_bytes(*c1, *c2),
        entries,
    };
    Ok(ParsedFile { file })
}

/// Reads a contract file into the caller's place, whole if all questions pass, and otherwise not at all.
pub fn read(place: &mut ReadFile, bytes: &[u8]) -> Result<(), Fault>
    ensures answer { Answers (reading bytes.now) 8 result }
    ensures after { place.new.file ≡ (if is_ok result then decoded bytes.now else place.old.file) }
{
    let parsed = parse(bytes)?;
    let leading = parsed.leading()?;
    ask_chains(leading.file)?;
    ask_calls(&leading)?;
    ask_windows(&leading)?;
    *place = ReadFile { file: parsed.file };
    Ok(())
}
