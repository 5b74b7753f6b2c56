//! Has each entry its place in its chain?
ghost use Rattle.std.specs.Prelude.{◌≡◌, ℕ, ◌<◌, Decides};
ghost use Rattle.entries.specs.Parts.{at};
ghost use Rattle.contract_file.specs.declared.faults.Fault.TheVariants.{Chain};
ghost use Rattle.contract_file.specs.Asking.{Asked};
ghost use Rattle.contract_file.specs.Chains.{chain, Numbered, Rising, Chained};
ghost use Rattle.contract_file.specs.Floors.{noted, Floors};

use crate::asking::ask_each;
use crate::faults::Fault;
use crate::files::File;
use crate::marks::Marks;
use entries::Entry;

/// The template at a place of the templates' chain, counted from 1, or 0 past its end.
// Kept with 0 for none, as docs/file-format.md has a pointer: what is asked of the answer is asked of a pointer too.
pub fn template_at(file: &File, place: u8) -> u16
    ensures { result ≡ chain file.now place }
{
    if place == 0 {
        return 0;
    }
    (1..place).fold(
        file.templates,
        |template, _| file.at(template).next_template(),
    )
}

/// Does a template stand on the chain, at the place that its number tells?
fn numbered(file: &File, i: u16) -> bool
    ensures { Decides result (Numbered file.now i (at file.now.entries i)) }
{
    match file.at(i) {
        Entry::Template { number, .. } => template_at(file, number) == i,
        _ => true,
    }
}

/// Notes what the entry behind this one in its chain has to exceed.
fn note(floors: &mut Marks, this: Entry)
    ensures { floors.new.marks ≡ noted this floors.old.marks }
{
    if let Entry::Condition {
        field: rank,
        next,
        ..
    }
    | Entry::Argument {
        slot: rank,
        next,
        ..
    } = this
    {
        floors.add(next, rank, u8::max);
    }
}

/// What each entry has to exceed: the greatest field or slot of those that it is behind.
fn floors(file: &File) -> Marks
    ensures { Floors file.now.entries 257 result.marks }
{
    let mut floors = Marks::none();
    for entry in &file.entries {
        note(&mut floors, *entry);
    }
    floors
}

/// Has a condition or an argument more than each that it follows?
fn rising(file: &File, floors: &Marks, i: u16) -> bool
    requires { Floors file.now.entries 257 floors.now.marks }
    ensures { Decides result (Rising file.now i (at file.now.entries i)) }
{
    match file.at(i) {
        Entry::Condition { field: rank, .. } | Entry::Argument { slot: rank, .. } => floors
            .of(i)
            .is_none_or(|floor| floor < rank),
        _ => true,
    }
}

/// Asks it of each entry.
pub(crate) fn ask_chains(file: &File) -> Result<(), Fault>
    ensures { Asked (Chained file.now) Chain result }
{
    let floors = floors(file);
    ask_each(
        |i| numbered(file, i) && rising(file, &floors, i),
        Fault::Chain,
    )
}
