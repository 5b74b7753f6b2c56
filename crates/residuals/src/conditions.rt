//! What a step asks of a record.
ghost use Rattle.std.specs.Prelude.{◌≡◌, ◌-◌, Some, slice_set};
ghost use Rattle.openings.specs.Clauses.{conditions_at};

use contract_file::{Condition, File};
use kinds::{Conditions, FIELDS, Test};

/// Puts the test of a field, counted from 1, into its place; a field that there is not takes none.
fn put_test(tests: &mut [Option<Test>; FIELDS], field: u8, test: Test)
    ensures { tests.new ≡ slice_set tests.old (field - 1) (Some test) }
{
    // Kept as a bound and an index: of what is written through an array's `get_mut`, a proof knows nothing, and apart from `put`, whose places count from 0.
    let place = usize::from(field).saturating_sub(1);
    if place < FIELDS {
        tests[place] = Some(test);
    }
}

/// The conditions along a chain.
pub(crate) fn conditions_from(file: &File, first: u16) -> Conditions
    ensures { result ≡ conditions_at file.now first }
{
    let mut tests = [None; FIELDS];
    for Condition { field, test } in file.conditions(first) {
        put_test(&mut tests, field, test);
    }
    Conditions { tests }
}
