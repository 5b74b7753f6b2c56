//! Numbers as people write them on a line.
#![tactic(auto)]

ghost use Rattle.std.specs.Prelude.{◌≡◌};
ghost use Rattle.std.specs.Char.{is_ascii_digit};
ghost use Rattle.std.specs.List.{list_all};
ghost use Rattle.lines.specs.Numbers.{number_of};

use std::str::from_utf8;

/// The most digits that a number is written with.
const MOST_DIGITS: usize = 10;

/// Is it digits alone?
fn is_digits(text: &[u8]) -> bool
    ensures { result ≡ list_all is_ascii_digit text.now }
{
    text.iter().all(|b| b.is_ascii_digit())
}

/// A number of 1 to 10 digits that fits 32 bits, or nothing.
pub fn number(text: &[u8]) -> Option<u32>
    ensures { result ≡ number_of text.now }
{
    // `parse` alone would also take a plus in front, and any number of zeros.
    if text.len() > MOST_DIGITS || !is_digits(text) {
        return None;
    }
    from_utf8(text).ok()?.parse::<u32>().ok()
}
