//! Does each call name a template on the chain and, bare in a template, one below that?
ghost use Rattle.std.specs.Prelude.{Decides};
ghost use Rattle.entries.specs.Parts.{sides};
ghost use Rattle.contract_file.specs.declared.faults.Fault.TheVariants.{Call};
ghost use Rattle.contract_file.specs.Asking.{Asked};
ghost use Rattle.contract_file.specs.Clauses.{Calls};
ghost use Rattle.contract_file.specs.Pass.{LowestReach};

use crate::asking::ask_each;
use crate::chains::template_at;
use crate::faults::Fault;
use crate::leading::LeadingFile;
use crate::marks::Marks;
use crate::reach::lowest;
use entries::Entry;

/// Is this no call, or a right one? Each entry is marked with the lowest template in which it is bare.
fn call_right(leading: &LeadingFile, bare: &Marks, i: u16) -> bool
    requires { LowestReach sides leading.now.file.now.entries bare.now.marks }
    ensures { Decides result (Calls leading.now.file.now i) }
{
    match leading.file.at(i) {
        Entry::Call { template, .. } => template_at(leading.file, template) > 0
            && bare.of(i).is_none_or(|lowest| template < lowest),
        _ => true,
    }
}

/// Asks it of each entry.
pub(crate) fn ask_calls(leading: &LeadingFile) -> Result<(), Fault>
    ensures { Asked (Calls leading.now.file.now) Call result }
{
    let bare = lowest(leading, Entry::sides);
    ask_each(|i| call_right(leading, &bare, i), Fault::Call)
}
