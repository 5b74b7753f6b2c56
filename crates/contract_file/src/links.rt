//! The chains of a file, link by link.
ghost use Rattle.std.specs.Prelude.{◌≡◌, ℕ, Option};
ghost use Rattle.std.specs.Iterator.{YieldsFirst, item_count};
ghost use Rattle.entries.specs.declared.entries.Entry.{Entry};
ghost use Rattle.contract_file.specs.Links.{condition_link, argument_link, links_from};

use crate::files::File;
use entries::Entry;
use kinds::{FIELDS, Filling, SLOTS, Test};
use std::marker::{Model, PhantomData};

/// What a step asks of one field, 1 to 4.
#[derive(Clone, Copy, Debug, PartialEq, Eq)]
pub struct Condition {
    pub field: u8,
    pub test: Test,
}

/// A link of a chain, by what it holds.
pub trait Link: Sized + Drop {
    /// What an entry is as such a link, with the number of the next.
    ghost link_of: { Entry → Option (Self × ℕ) };

    /// The link that an entry is, and the number of the next; none if it is no such link.
    fn of(this: Entry) -> Option<(Self, u16)>
        ensures { result ≡ link_of this };
}

impl Link for Condition {
    ghost link_of = { condition_link };

    fn of(this: Entry) -> Option<(Condition, u16)> {
        match this {
            Entry::Condition { field, test, next } => Some((Condition { field, test }, next)),
            _ => None,
        }
    }
}

impl Link for Filling {
    ghost link_of = { argument_link };

    fn of(this: Entry) -> Option<(Filling, u16)> {
        match this {
            Entry::Argument { slot, value, next } => Some((Filling { slot, value }, next)),
            _ => None,
        }
    }
}

/// The links of a chain that are left, seen as their list. The chain ends at the first entry that is no such link.
#[derive(Drop)]
pub struct Links<'a, L: Link> {
    file: &'a File,
    at: u16,
    most: usize,
    link: PhantomData<L>,
}

impl<'a, L: Link> Model for Links<'a, L> {
    ghost use Rattle.std.specs.Prelude.{List};
    ghost use Rattle.contract_file.specs.Links.{links_from};

    ghost Value = { List L };

    ghost view = { λ it. links_from L.link_of it.file.now.entries it.most it.at };
}

impl<'a, L: Link> Links<'a, L> {
    /// The links from an entry on, at most so many.
    fn new(file: &'a File, first: u16, most: usize) -> Links<'a, L>
        ensures { result ≡ links_from L.link_of file.now.entries most first }
    {
        Links {
            file,
            at: first,
            most,
            link: PhantomData,
        }
    }
}

impl<L: Link> Iterator for Links<'_, L> {
    type Item = L;

    ghost next_gives = { YieldsFirst (λ links. links) };

    ghost remaining = { item_count (λ links. links) };

    fn next(&mut self) -> Option<L> {
        self.most = self.most.checked_sub(1)?;
        let (link, next) = L::of(self.file.at(self.at))?;
        self.at = next;
        Some(link)
    }
}

impl File {
    /// The conditions of a chain from its first one on. Fields rise along it, so it has at most a link for each.
    pub fn conditions(&self, first: u16) -> Links<'_, Condition>
        ensures { result ≡ links_from condition_link self.now.entries FIELDS first }
    {
        Links::new(self, first, FIELDS)
    }

    /// The arguments of a chain from its first one on. Slots rise along it, so it has at most a link for each.
    pub fn arguments(&self, first: u16) -> Links<'_, Filling>
        ensures { result ≡ links_from argument_link self.now.entries SLOTS first }
    {
        Links::new(self, first, SLOTS)
    }
}
