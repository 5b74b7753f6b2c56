//! The row that a call starts from.
ghost use Rattle.std.specs.Prelude.{◌≡◌};
ghost use Rattle.kinds.specs.Rows.{fill};
ghost use Rattle.openings.specs.Clauses.{arguments_at};

use contract_file::File;
use kinds::{Filling, Row, SLOTS, put};

/// Zeros, with the chain of arguments filled in from the caller's row.
pub(crate) fn filled(file: &File, first: u16, caller: &Row) -> Row
    ensures { result ≡ fill (arguments_at file.now first) caller.now }
{
    let mut row = [0; SLOTS];
    for Filling { slot, value } in file.arguments(first) {
        put(&mut row, slot, value.number(caller));
    }
    row
}
