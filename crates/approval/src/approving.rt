//! Approving a file that has been read, for a kind and a signing day: the questions 8 to 11.
ghost use Rattle.std.specs.Prelude.{◌≡◌, ℕ, ◌≤◌, IfOk, Decides};
ghost use Rattle.contract_file.specs.declared.faults.Fault.TheVariants.{Inadmissible};
ghost use Rattle.contract_file.specs.Asking.{Asked, Answers};
ghost use Rattle.openings.specs.Shapes.{Known, openings_of};
ghost use Rattle.answers.specs.Approving.{Admitted, Conditions, approving};

use contract_file::{Fault, PLACES, ReadFile, ask_each};
use entries::Entry;
use kinds::{Kind, LAST_DAY};
use openings::{MOST_NODES, Shape, openings, shape_at};

/// Is this no condition, or one that the kind admits?
fn admitted<K: Kind>(kind: &K, this: Entry) -> bool
    ensures { Decides result (Admitted K.Kind.meaning.admits this) }
{
    match this {
        Entry::Condition { field, test, .. } => kind.admits(field, &test),
        _ => true,
    }
}

/// Does the kind admit each condition?
fn ask_conditions<K: Kind>(read: &ReadFile, kind: &K) -> Result<(), Fault>
    ensures { Asked (Conditions K.Kind.meaning.admits read.now.file) Inadmissible result }
{
    let file = read.file();
    ask_each(|i| admitted(kind, file.at(i)), Fault::Inadmissible)
}

/// Is a read file of this kind, with conditions that the kind admits, the contract small enough when it is opened, and the
/// signing day early enough? If so, the answer is what each entry opens to.
pub fn approve<K: Kind>(read: &ReadFile, kind: &K, day: u32) -> Result<[Shape; PLACES], Fault>
    ensures answer { Answers (approving (K.Kind.numbered kind.now) K.Kind.meaning.admits day read.now.file) 12 result }
    ensures value { IfOk result (λ s. s ≡ openings_of read.now.file) }
    ensures known { IfOk result (λ s. Known read.now.file s) }
{
    let file = read.file();
    if file.kind != kind.number() {
        return Err(Fault::Kind);
    }
    ask_conditions(read, kind)?;
    let shapes = openings(read);
    if usize::from(shape_at(&shapes, usize::from(file.contract)).size()) > MOST_NODES {
        return Err(Fault::Size);
    }
    if day > LAST_DAY {
        return Err(Fault::Day);
    }
    Ok(shapes)
}
