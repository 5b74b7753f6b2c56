//! The words of a kind of record.
ghost use Rattle.std.specs.Prelude.{◌≡◌};
ghost use Rattle.words.specs.Names.{names_of, kind_name, field_name};

use kinds::Inspections;

/// The words of transfers or of inspections.
#[derive(Clone, Copy, Debug, PartialEq, Eq)]
pub enum Names {
    Transfers,
    Inspections,
}

/// Byte 0 of a file picks them: those of inspections for their number, and those of transfers for any other.
impl From<u8> for Names {
    ghost from_gives = { λ number names. names ≡ names_of number };

    fn from(number: u8) -> Names {
        match number {
            Inspections::NUMBER => Names::Inspections,
            _ => Names::Transfers,
        }
    }
}

impl Names {
    pub fn kind(&self) -> &'static str
        ensures { result.now ≡ kind_name self.now }
    {
        match *self {
            Names::Transfers => "transfers",
            Names::Inspections => "inspections",
        }
    }

    /// The name of a field, 1 to 4.
    pub fn field(&self, field: u8) -> &'static str
        ensures { result.now ≡ field_name self.now field }
    {
        match (*self, field) {
            (Names::Transfers, 1) => "from",
            (Names::Transfers, 2) => "to",
            (Names::Transfers, 3) => "resource",
            (Names::Transfers, 4) => "amount",
            (Names::Inspections, 1) => "vehicle",
            (Names::Inspections, 2) => "check",
            (Names::Inspections, 3) => "reading",
            (Names::Inspections, 4) => "odometer",
            _ => "no field",
        }
    }
}
