//! Has each step a window, and does no body reach a calendar window?
ghost use Rattle.std.specs.Prelude.{Decides};
ghost use Rattle.entries.specs.Parts.{pointers};
ghost use Rattle.contract_file.specs.declared.faults.Fault.TheVariants.{Window};
ghost use Rattle.contract_file.specs.Asking.{Asked};
ghost use Rattle.contract_file.specs.Clauses.{Windows};
ghost use Rattle.contract_file.specs.Pass.{LowestReach};

use crate::asking::ask_each;
use crate::faults::Fault;
use crate::leading::LeadingFile;
use crate::marks::Marks;
use crate::reach::lowest;
use days::Counted;
use entries::Entry;
use kinds::LAST_DAY;

/// Is this no step, or one with a right window? Each entry is marked with the lowest template that reaches it.
fn window_right(leading: &LeadingFile, reached: &Marks, i: u16) -> bool
    requires { LowestReach pointers leading.now.file.now.entries reached.now.marks }
    ensures { Decides result (Windows leading.now.file.now i) }
{
    match leading.file.at(i) {
        Entry::Step { window, .. } => window.first <= window.last
            && window.last <= LAST_DAY
            && (matches!(window.counted, Counted::FromBase) || reached.of(i).is_none()),
        _ => true,
    }
}

/// Asks it of each entry.
pub(crate) fn ask_windows(leading: &LeadingFile) -> Result<(), Fault>
    ensures { Asked (Windows leading.now.file.now) Window result }
{
    let reached = lowest(leading, Entry::pointers);
    ask_each(|i| window_right(leading, &reached, i), Fault::Window)
}
