//! What a held contract tells, and what a record makes of it.
ghost use Rattle.std.specs.Prelude.{◌≡◌};
ghost use Rattle.language.specs.Terms.{Term, nodes};
ghost use Rattle.language.specs.Residuals.{residual};
ghost use Rattle.language.specs.Ends.{durations, end_day};
ghost use Rattle.openings.specs.Clauses.{templates_of};
ghost use Rattle.answers.specs.Approving.{contract_opened};
ghost use Rattle.due.specs.Lists.{Listed};
ghost use Rattle.held.specs.Holding.{file_of, Holding};
ghost use Rattle.held.specs.Taking.{Taken};

use crate::foreseen::Foreseen;
use crate::held::Held;
use due::{ShortList, due_list};
use kinds::Kind;
use outlook::end_from;
use residuals::hold;
use terms::{Table, TooLarge, open_contract};

impl Held {
    /// Opens the contract of a checked file on its signing day, and spends the checked file.
    pub fn open(foreseen: Foreseen) -> Held
        ensures same { result.foreseen ≡ foreseen }
        ensures holding { Holding result (contract_opened foreseen.prospect.openings.read.file foreseen.day) }
    {
        let mut table = Table::new();
        // A checked contract fits.
        open_contract(foreseen.openings(), foreseen.day(), &mut table).unwrap();
        Held { foreseen, table }
    }

    /// The checked file.
    pub fn foreseen(&self) -> &Foreseen
        ensures { result.now ≡ self.now.foreseen }
    {
        &self.foreseen
    }

    /// How many nodes the term has.
    pub fn nodes(&self) -> u16
        ensures { (t : Term) → Holding self.now t → result ≡ nodes t }
    {
        self.table.len() as u16
    }

    /// Holds a record against the term: it becomes its residual, if that has at most 256 nodes, and stays otherwise.
    pub fn take<K: Kind>(&mut self, kind: &K, r: &K::Record) -> Result<(), TooLarge>
        ensures { (t : Term) → Holding self.old t → Taken self.old self.new (residual K.Kind.meaning (templates_of (file_of self.old)) t r.now) result }
    {
        hold(kind, self.foreseen.openings(), r, &mut self.table)
    }

    /// Writes what is due into a lent list and answers how many leaves there are; a list that is too short stays as it was.
    pub fn due_list(&self, list: &mut [u64]) -> Result<usize, ShortList>
        ensures { (t : Term) → Holding self.now t → Listed t list.old list.new result }
    {
        due_list(self.foreseen.openings(), &self.table, list)
    }

    /// The earliest day on which the contract can end, if no record comes before the clock; none if it cannot end.
    pub fn end_day(&self, clock: u32) -> Option<u32>
        ensures { (t : Term) → Holding self.now t → result ≡ end_day (durations (templates_of (file_of self.now))) t clock }
    {
        end_from(&self.foreseen.prospect, &self.table, clock)
    }
}
