//! Days that may be absent. An absent day is later than any other.
ghost use Rattle.std.specs.Prelude.{◌≡◌, ◌+◌};
ghost use Rattle.language.specs.Ends.{earlier, later, up_to};

use kinds::LAST_DAY;

/// The earlier of two.
pub fn earlier(a: Option<u32>, b: Option<u32>) -> Option<u32>
    ensures { result ≡ earlier a b }
{
    match (a, b) {
        (Some(x), Some(y)) => Some(x.min(y)),
        (day, None) | (None, day) => day,
    }
}

/// The later of two.
pub fn later(a: Option<u32>, b: Option<u32>) -> Option<u32>
    ensures { result ≡ later a b }
{
    Some(a?.max(b?))
}

/// So many days after a base day, if that is a day that a record may bear.
#[tactic(auto, unfolding(language::specs::Ends::up_to))]
pub fn day_after(base: u32, days: u32) -> Option<u32>
    ensures { result ≡ up_to 65535 (base + days) }
{
    let day = base.checked_add(days)?;
    (day <= LAST_DAY).then_some(day)
}
