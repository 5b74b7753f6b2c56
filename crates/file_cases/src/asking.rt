//! Checking a file as one of a kind that is told by its number.
ghost use Rattle.std.specs.Prelude.{◌≡◌, ◌==◌, is_ok, if◌then◌else◌};
ghost use Rattle.kinds.specs.Transfers.{transfers};
ghost use Rattle.kinds.specs.Inspections.{inspections};
ghost use Rattle.answers.specs.Computed.{computed};
ghost use Rattle.approval.specs.Contents.{contents, held};

use approval::{Checked, check};
use contract_file::Fault;
use kinds::{Inspections, Transfers};

/// Checks a file into a place, as one of inspections for kind 2 and of transfers for any other.
pub fn check_as(kind: u32, place: &mut Checked, bytes: &[u8], day: u32) -> Result<(), Fault>
    ensures answer { result ≡ (if kind == 2 then computed 2 inspections.admits day bytes.now else computed 1 transfers.admits day bytes.now) }
    ensures after { held place.new ≡ (if is_ok result then contents bytes.now day else held place.old) }
{
    // Kept as a number, and apart from the choice by names: the tables of cases tell a kind by the byte of a file.
    match kind {
        2 => check(place, bytes, &Inspections, day),
        _ => check(place, bytes, &Transfers, day),
    }
}
