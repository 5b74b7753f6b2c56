//! A question asked of each entry.
ghost use Rattle.contract_file.specs.Asking.{AskedOfEach};

use crate::faults::Fault;
use crate::files::PLACES;

/// Asks a question of the head, as entry 0, and of each entry that a file may have. The fault is that of the first
/// that breaks it.
pub fn ask_each<Q: Fn(u16) -> bool, F: FnOnce(u16) -> Fault>(
    question: Q,
    fault: F,
) -> Result<(), Fault>
    requires asked { Q.IsAlwaysCallable question }
    requires told { F.IsAlwaysCallable fault }
    ensures { AskedOfEach (Q.post question) (F.post fault) result }
{
    match (0..PLACES as u16).find(|&i| !question(i)) {
        Some(i) => Err(fault(i)),
        None => Ok(()),
    }
}
