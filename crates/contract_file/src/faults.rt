//! Why a file is refused: a case for each question, with the entry at fault.
ghost use Rattle.std.specs.Prelude.{◌≡◌};
ghost use Rattle.contract_file.specs.Faults.{fault_number, fault_entry};

/// The question that was answered no, with the lowest entry at fault where it is asked of entries.
/// An entry's number 0 is the head.
#[derive(Clone, Copy, Debug, PartialEq, Eq)]
pub enum Fault {
    /// The length is not that of a head and 1 to 256 entries.
    Length,
    /// The version byte is not 1.
    Version,
    /// The entry has no listed tag, an unlisted value, or something other than zeros elsewhere.
    Unlisted(u16),
    /// A pointer of the entry or of the head does not lead where it should.
    Pointer(u16),
    /// The entry has the wrong place in its chain, or none.
    Chain(u16),
    /// The call names no template, or, bare in a template, none below that one.
    Call(u16),
    /// The step's window is no window, or is calendar and reached from a body.
    Window(u16),
    /// The file is of another kind.
    Kind,
    /// The kind does not admit the condition.
    Inadmissible(u16),
    /// The opened contract has more than 256 nodes.
    Size,
    /// The signing day is too late.
    Day,
}

impl Fault {
    /// The number of the question.
    // Kept as a number: docs/questions.md gives each question its own, and the first line of a report has it.
    pub fn number(&self) -> u8
        ensures { result ≡ fault_number self.now }
    {
        match *self {
            Fault::Length => 1,
            Fault::Version => 2,
            Fault::Unlisted(_) => 3,
            Fault::Pointer(_) => 4,
            Fault::Chain(_) => 5,
            Fault::Call(_) => 6,
            Fault::Window(_) => 7,
            Fault::Kind => 8,
            Fault::Inadmissible(_) => 9,
            Fault::Size => 10,
            Fault::Day => 11,
        }
    }

    /// The entry at fault, 0 for the head or the whole.
    // Kept with 0 for none: docs/questions.md calls the head entry 0.
    pub fn entry(&self) -> u16
        ensures { result ≡ fault_entry self.now }
    {
        match *self {
            Fault::Length | Fault::Version | Fault::Kind | Fault::Size | Fault::Day => 0,
            Fault::Unlisted(i)
            | Fault::Pointer(i)
            | Fault::Chain(i)
            | Fault::Call(i)
            | Fault::Window(i)
            | Fault::Inadmissible(i) => i,
        }
    }
}
