//! What each entry of a file opens to, by rounds: a round opens calls one deeper.
ghost use Rattle.std.specs.Prelude.{◌≡◌};
ghost use Rattle.language.specs.Terms.{Guarded};
ghost use Rattle.openings.specs.Clauses.{body_of, body_at, templates_of};
ghost use Rattle.openings.specs.Shapes.{Known, openings_of};
ghost use Rattle.openings.specs.Rounds.{entry_shape, Passed, Called};

use crate::passes::fill_from_last;
use crate::shapes::{Shape, shape_at};
use contract_file::{File, MOST_TEMPLATES, PLACES, ReadFile, template_at};
use entries::Entry;
use std::array;

/// A place for each template at its number; place 0 is no template's.
const TEMPLATES: usize = MOST_TEMPLATES + 1;

/// The body that a template points to, and 0 for anything else.
// Kept with 0 for none, as a pointer has it: entry 0 reads as lost, which is what no template opens to.
fn template_body(entry: Entry) -> u16
    ensures { result ≡ body_of «entry» }
{
    match entry {
        Entry::Template { body, .. } => body,
        _ => 0,
    }
}

/// The entry of a template's body, or 0 where there is no such template.
// Kept with 0 for none, as a pointer has it: entry 0 reads as lost, which is what no template opens to.
pub fn body(file: &File, template: u8) -> u16
    ensures { result ≡ body_at file.now template }
{
    template_body(file.at(template_at(file, template)))
}

/// What an entry opens to, by what the entries above it and the templates open to.
fn entry_shape(entry: Entry, shapes: &[Shape; PLACES], calls: &[Shape; TEMPLATES]) -> Shape
    ensures { result ≡ entry_shape shapes.now calls.now «entry» }
{
    match entry {
        Entry::Done => Shape::Done,
        Entry::Step { .. } => Shape::leaf(),
        Entry::Choice { left, right } => Shape::choice_of(
            shape_at(shapes, usize::from(left)),
            shape_at(shapes, usize::from(right)),
        ),
        Entry::Both { left, right } => Shape::both_of(
            shape_at(shapes, usize::from(left)),
            shape_at(shapes, usize::from(right)),
        ),
        Entry::Then { left, right } => Shape::then_of(
            shape_at(shapes, usize::from(left)),
            shape_at(shapes, usize::from(right)),
        ),
        Entry::Call { template, .. } => shape_at(calls, usize::from(template)),
        Entry::Lost | Entry::Template { .. } | Entry::Condition { .. } | Entry::Argument { .. } =>
            Shape::Lost,
    }
}

/// What each entry opens to, from the last to the first, where calls open as given.
fn pass(read: &ReadFile, calls: &[Shape; TEMPLATES]) -> [Shape; PLACES]
    ensures { Passed read.now.file calls.now 0 result }
{
    let file = read.file();
    fill_from_last(Shape::Lost, |number, shapes| {
        entry_shape(file.at(number), shapes, calls)
    })
}

/// What the templates open to, by what the entries do.
fn called(file: &File, shapes: &[Shape; PLACES]) -> [Shape; TEMPLATES]
    ensures { Called file.now shapes.now result }
{
    array::from_fn(|number| shape_at(shapes, usize::from(body(file, number as u8))))
}

/// What each entry of a file opens to, at its number: known once for each, whatever the row and the day.
/// Each bare call in a template of the file names a lower one, so that opening comes to an end: seventeen rounds reach the bottom.
pub fn openings(read: &ReadFile) -> [Shape; PLACES]
    ensures value { result ≡ openings_of read.now.file }
    ensures known { Known read.now.file result }
    ensures guarded { Guarded (templates_of read.now.file) }
{
    let mut calls = [Shape::Lost; TEMPLATES];
    for _ in 0..TEMPLATES {
        let shapes = pass(read, &calls);
        calls = called(read.file(), &shapes);
    }
    pass(read, &calls)
}
