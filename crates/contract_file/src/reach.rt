//! What templates reach, by one pass from the first entry to the last: pointers only lead up.
ghost use Rattle.std.specs.Prelude.{◌≡◌, ℕ};
ghost use Rattle.std.specs.Fn.{FnReturnsAt};
ghost use Rattle.entries.specs.declared.entries.Entry.{Entry};
ghost use Rattle.contract_file.specs.Marks.{mark};
ghost use Rattle.contract_file.specs.Pass.{LowestReach, begun, handed_on};
ghost use Rattle.contract_file.specs.Reach.{Follows};

use crate::leading::LeadingFile;
use crate::marks::Marks;
use entries::Entry;

/// Notes that a template reaches its body.
fn begin(lowest: &mut Marks, entry: &Entry)
    ensures { lowest.new.marks ≡ begun entry.now lowest.old.marks }
{
    if let Entry::Template { number, body, .. } = *entry {
        lowest.add(body, number, u8::min);
    }
}

/// Notes that what reaches an entry reaches what is onward from it.
fn hand_on(lowest: &mut Marks, entry: u16, onward: (u16, u16))
    ensures { lowest.new.marks ≡ handed_on onward (mark lowest.old.marks «entry») lowest.old.marks }
{
    if let Some(number) = lowest.of(entry) {
        lowest.add(onward.0, number, u8::min);
        lowest.add(onward.1, number, u8::min);
    }
}

/// The lowest template that reaches each entry, if one does: from its body on by the pointers that `onward` gives.
// Kept as a clause that the questions ask for: marks of both ways are of one type, and each question names its own way.
pub(crate) fn lowest<F: Fn(&Entry) -> (u16, u16)>(leading: &LeadingFile, onward: F) -> Marks
    ghost way: { Entry → ℕ × ℕ }
    requires callable { F.IsAlwaysCallable onward }
    requires told { (e : Entry) (p : ℕ × ℕ) → FnReturnsAt F.Fn onward e p → p ≡ way e }
    requires follows { Follows way }
    ensures { LowestReach way leading.now.file.now.entries result.marks }
{
    let mut lowest = Marks::none();
    for (i, entry) in leading.file.entries.iter().enumerate() {
        begin(&mut lowest, entry);
        hand_on(&mut lowest, i as u16, onward(entry));
    }
    lowest
}
