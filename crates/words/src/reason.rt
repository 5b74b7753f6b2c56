//! Why a file is refused, in a sentence.
ghost use Rattle.std.specs.Prelude.{◌≡◌, slice_index};

use crate::names::Names;
use crate::test_words::TestWords;
use contract_file::{FILE_BYTES, Fault, HEAD_BYTES};
use days::Window;
use entries::{ENTRY_BYTES, Entry, decode};
use kinds::LAST_DAY;
use std::fmt;

/// A fault, with what it was found in.
#[derive(Clone, Copy)]
pub struct Reason<'a> {
    pub names: Names,
    pub bytes: &'a [u8],
    pub day: u32,
    pub fault: Fault,
}

/// A byte of the file, and 0 past its end.
pub fn byte(bytes: &[u8], at: usize) -> u8
    ensures { result ≡ slice_index bytes.now at }
{
    bytes.get(at).copied().unwrap_or(0)
}

/// What an entry with a tag is called, if the tag is listed.
// Kept as the numbers of docs/file-format.md: where these words are wanted, no entry was decoded.
fn tag_name(tag: u8) -> Option<&'static str> {
    match tag {
        1 => Some("a done"),
        2 => Some("a lost"),
        3 => Some("a step"),
        4 => Some("a choice"),
        5 => Some("a both"),
        6 => Some("a then"),
        7 => Some("a call"),
        8 => Some("a template"),
        9 => Some("a condition"),
        10 => Some("an argument"),
        _ => None,
    }
}

impl Reason<'_> {
    /// The number in two bytes of the file.
    fn pair(&self, at: usize) -> u16 {
        u16::from_be_bytes([byte(self.bytes, at), byte(self.bytes, at.saturating_add(1))])
    }

    /// The entry of a number, if it is listed.
    fn entry(&self, number: u16) -> Option<Entry> {
        let before = usize::from(number).checked_sub(1)?;
        let entries = self.bytes.get(HEAD_BYTES..)?;
        decode(entries.chunks_exact(ENTRY_BYTES).nth(before)?)
    }

    fn length<W: fmt::Write>(&self, f: &mut fmt::Formatter<W>) -> fmt::Result {
        let size = self.bytes.len();
        if size > FILE_BYTES {
            write!(
                f,
                "the file has more than the {FILE_BYTES} bytes of a head and 256 entries"
            )
        } else if size < HEAD_BYTES {
            write!(
                f,
                "the file has {size} bytes, which is less than the {HEAD_BYTES} of a head"
            )
        } else {
            let count = self.pair(2);
            write!(
                f,
                "the head tells {count} entries, and the file has {size} bytes, where 8 and 16 for each of 1 to 256 entries belong"
            )
        }
    }

    fn unlisted<W: fmt::Write>(&self, i: u16, f: &mut fmt::Formatter<W>) -> fmt::Result {
        let tag = byte(
            self.bytes,
            (ENTRY_BYTES * usize::from(i)).saturating_sub(HEAD_BYTES),
        );
        match tag_name(tag) {
            Some(name) => write!(
                f,
                "entry {i}, {name}, has a value that is not listed, or something other than zero in a place that it does not use"
            ),
            None => write!(
                f,
                "entry {i} has the tag {tag}, and there are only the tags 1 to 10"
            ),
        }
    }

    fn pointer<W: fmt::Write>(&self, i: u16, f: &mut fmt::Formatter<W>) -> fmt::Result {
        if i == 0 {
            let contract = self.pair(6);
            let templates = self.pair(4);
            return write!(
                f,
                "the head points to {contract} as the contract, which has to be a clause of the file, and to {templates} as the first template, which has to be a template of the file or 0"
            );
        }
        let (a, b) = self.entry(i).map_or((0, 0), |entry| entry.pointers());
        write!(
            f,
            "entry {i} points to {a} and {b}, and not each of them is an entry of the right sort with a higher number, or 0 where a chain may end"
        )
    }

    fn chain<W: fmt::Write>(&self, i: u16, f: &mut fmt::Formatter<W>) -> fmt::Result {
        match self.entry(i) {
            Some(Entry::Template { number, .. }) => write!(
                f,
                "entry {i}, template {number}, does not stand at place {number} of the chain of templates"
            ),
            Some(Entry::Condition { field, .. }) => {
                let name = self.names.field(field);
                write!(
                    f,
                    "entry {i}, a condition on field {field} ({name}), follows one on the same or a later field"
                )
            }
            Some(Entry::Argument { slot, .. }) => write!(
                f,
                "entry {i}, an argument for slot {slot}, follows one for the same or a later slot"
            ),
            _ => write!(f, "entry {i} has no right place in its chain"),
        }
    }

    fn call<W: fmt::Write>(&self, i: u16, f: &mut fmt::Formatter<W>) -> fmt::Result {
        match self.entry(i) {
            Some(Entry::Call { template, .. }) => write!(
                f,
                "entry {i} calls template {template}, which does not stand on the chain of templates, or is not below the template whose body comes to this call with no step before it"
            ),
            _ => write!(f, "entry {i} calls no right template"),
        }
    }

    fn window<W: fmt::Write>(&self, i: u16, f: &mut fmt::Formatter<W>) -> fmt::Result {
        let Some(Entry::Step { window, .. }) = self.entry(i) else {
            return write!(f, "entry {i} has no right window");
        };
        let Window { first, last, .. } = window;
        if first > last {
            write!(
                f,
                "entry {i}, a step, has its first day {first} after its last day {last}"
            )
        } else if last > LAST_DAY {
            write!(
                f,
                "entry {i}, a step, has its last day {last} after the last day there is, {LAST_DAY}"
            )
        } else {
            write!(
                f,
                "entry {i}, a step by the calendar, is reached from the body of a template"
            )
        }
    }

    fn condition<W: fmt::Write>(&self, i: u16, f: &mut fmt::Formatter<W>) -> fmt::Result {
        let names = self.names;
        let kind = names.kind();
        match self.entry(i) {
            Some(Entry::Condition { field, test, .. }) => {
                let asked = TestWords { names, field, test };
                write!(f, "entry {i} asks: {asked}, which {kind} do not admit")
            }
            _ => write!(f, "entry {i} asks what {kind} do not admit"),
        }
    }
}

impl fmt::Display for Reason<'_> {
    fn fmt<W: fmt::Write>(&self, f: &mut fmt::Formatter<W>) -> fmt::Result {
        match self.fault {
            Fault::Length => self.length(f),
            Fault::Version => {
                let version = byte(self.bytes, 1);
                write!(f, "byte 1 is {version}, and has to be 1")
            }
            Fault::Unlisted(i) => self.unlisted(i, f),
            Fault::Pointer(i) => self.pointer(i, f),
            Fault::Chain(i) => self.chain(i, f),
            Fault::Call(i) => self.call(i, f),
            Fault::Window(i) => self.window(i, f),
            Fault::Kind => {
                let kind = byte(self.bytes, 0);
                write!(
                    f,
                    "byte 0 is {kind}, and has to be 1 for transfers or 2 for inspections"
                )
            }
            Fault::Inadmissible(i) => self.condition(i, f),
            Fault::Size => write!(f, "the contract has more than 256 nodes when it is opened"),
            Fault::Day => {
                let day = self.day;
                write!(
                    f,
                    "the signing day {day} is after the last day there is, {LAST_DAY}"
                )
            }
        }
    }
}
