//! Does each pointer lead where it should?
ghost use Rattle.std.specs.Prelude.{◌≡◌, Decides, IfOk};
ghost use Rattle.contract_file.specs.Asking.{Asked};
ghost use Rattle.contract_file.specs.Pointing.{Leads, EndsOrLeads, SidesLead, EntryLeads, HeadLeads, Pointers};
ghost use Rattle.contract_file.specs.declared.faults.Fault.TheVariants.{Pointer};
ghost use Rattle.entries.specs.Parts.{at};

use crate::asking::ask_each;
use crate::faults::Fault;
use crate::files::File;
use crate::leading::{LeadingFile, ParsedFile};
use entries::{Entry, Sort};

/// Where pointers lead from: an entry of a file, or its head as entry 0.
#[derive(Clone, Copy)]
struct Origin<'a> {
    file: &'a File,
    number: u16,
}

impl Origin<'_> {
    /// Does a pointer lead up to an entry of this sort?
    fn leads(&self, to: u16, sort: Sort) -> bool
        ensures { Decides result (Leads self.now.file.now self.now.number to sort) }
    {
        self.number < to && to <= self.file.count && self.file.at(to).sort() == sort
    }

    /// Is a pointer none, or does it lead up to an entry of this sort?
    // Kept with 0 for none: the file's layout has it so, and place 0 is lost.
    fn ends_or_leads(&self, to: u16, sort: Sort) -> bool
        ensures { Decides result (EndsOrLeads self.now.file.now self.now.number to sort) }
    {
        to == 0 || self.leads(to, sort)
    }

    fn sides_lead(&self, left: u16, right: u16) -> bool
        ensures { Decides result (SidesLead self.now.file.now self.now.number left right) }
    {
        self.leads(left, Sort::Clause) && self.leads(right, Sort::Clause)
    }

    /// Does each pointer of an entry that stands here lead where it should?
    fn entry_leads(&self, entry: Entry) -> bool
        ensures { Decides result (EntryLeads self.now.file.now self.now.number «entry») }
    {
        match entry {
            Entry::Lost | Entry::Done => true,
            Entry::Step {
                tail,
                conditions,
                ..
            } => {
                self.leads(tail, Sort::Clause) && self.ends_or_leads(conditions, Sort::Condition)
            }
            Entry::Choice { left, right }
            | Entry::Both { left, right }
            | Entry::Then { left, right } => self.sides_lead(left, right),
            Entry::Call { arguments, .. } => self.ends_or_leads(arguments, Sort::Argument),
            Entry::Template { body, next, .. } => {
                self.leads(body, Sort::Clause) && self.ends_or_leads(next, Sort::Template)
            }
            Entry::Condition { next, .. } => self.ends_or_leads(next, Sort::Condition),
            Entry::Argument { next, .. } => self.ends_or_leads(next, Sort::Argument),
        }
    }
}

fn head_leads(file: &File) -> bool
    ensures { Decides result (HeadLeads file.now) }
{
    let head = Origin { file, number: 0 };
    head.leads(file.contract, Sort::Clause) && head.ends_or_leads(file.templates, Sort::Template)
}

/// Does each pointer of the entry of a number, or of the head, lead where it should?
fn pointers_lead(file: &File, number: u16) -> bool
    ensures { Decides result (Pointers file.now number) }
{
    let here = Origin { file, number };
    (number > 0 || head_leads(file)) && here.entry_leads(file.at(number))
}

impl ParsedFile {
    /// Asks it of the head and of each entry.
    pub(crate) fn leading(&self) -> Result<LeadingFile<'_>, Fault>
        ensures answer { Asked (Pointers self.now.file) Pointer result }
        ensures same { IfOk result (λ leading. leading.file.now ≡ self.now.file) }
    {
        ask_each(|i| pointers_lead(&self.file, i), Fault::Pointer)?;
        Ok(LeadingFile { file: &self.file })
    }
}
