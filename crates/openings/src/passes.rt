//! A table with a place for each entry, filled from the last to the first.
ghost use Rattle.std.specs.Prelude.{◌≡◌, ◌<◌, ℕ, slice_index_or};
ghost use Rattle.openings.specs.Passes.{told_past, Gives};

use contract_file::PLACES;

/// Fills the places from the last to the first, by a rule that is told what stands past its own: what an entry points to lies
/// there. The other places are untold so far.
pub fn fill_from_last<T: Copy, F: Fn(u16, &[T; PLACES]) -> T>(untold: T, rule: F) -> [T; PLACES]
    requires { F.IsAlwaysCallable rule }
    ensures { (i : ℕ) → i < 257 → Gives F.Fn rule i (told_past untold result i) (slice_index_or result i untold) }
{
    let mut table = [untold; PLACES];
    // Kept by index: the rule reads the table that is being filled.
    for place in (0..PLACES).rev() {
        table[place] = rule(place as u16, &table);
    }
    table
}
