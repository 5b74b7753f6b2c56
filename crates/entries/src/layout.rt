//! How the sixteen bytes of an entry are read: the tag in front, the rest by that tag.
ghost use Rattle.std.specs.Prelude.{◌≡◌, length};
ghost use Rattle.entries.specs.Parts.{Listed, ListedIf, TestIf, ValueIf};
ghost use Rattle.entries.specs.Layout.{two, four, fields_of, nothing_else, counted_of, step_of, sides_of, call_of, template_of, test_of, condition_of, filling_of, argument_of, tagged, entry_of};

use crate::entries::Entry;
use days::{Counted, Window};
use kinds::{Test, Value};

/// How many bytes an entry has.
pub const ENTRY_BYTES: usize = 16;

/// Two bytes, the high one first.
pub fn two_bytes(high: u8, low: u8) -> u16
    ensures { result ≡ two high low }
{
    u16::from_be_bytes([high, low])
}

/// Four bytes, the high one first.
fn four_bytes(a: u8, b: u8, c: u8, d: u8) -> u32
    ensures { result ≡ four a b c d }
{
    u32::from_be_bytes([a, b, c, d])
}

/// What stands behind a tag.
#[derive(Clone, Copy)]
pub struct Fields {
    k: u8,
    a: u16,
    b: u16,
    next: u16,
    u: u32,
    v: u32,
}

/// Takes the fifteen bytes behind a tag apart.
fn behind(rest: &[u8]) -> Fields
    requires { length rest.now ≡ 15 }
    ensures { result ≡ fields_of rest.now }
{
    match rest {
        [k, a1, a2, b1, b2, n1, n2, u1, u2, u3, u4, v1, v2, v3, v4] => Fields {
            k: *k,
            a: two_bytes(*a1, *a2),
            b: two_bytes(*b1, *b2),
            next: two_bytes(*n1, *n2),
            u: four_bytes(*u1, *u2, *u3, *u4),
            v: four_bytes(*v1, *v2, *v3, *v4),
        },
        _ => unreachable(),
    }
}

/// An entry that has no contents.
fn plain(f: Fields, empty: Entry) -> Option<Entry>
    ensures { result ≡ nothing_else f empty }
{
    match f {
        Fields {
            k: 0,
            a: 0,
            b: 0,
            next: 0,
            u: 0,
            v: 0,
        } => Some(empty),
        _ => None,
    }
}

/// How a step's days are counted: 1 for the calendar, 0 for a base.
fn counted(k: u8) -> Option<Counted>
    ensures { result ≡ counted_of k }
{
    match k {
        0 => Some(Counted::FromBase),
        1 => Some(Counted::ByCalendar),
        _ => None,
    }
}

// Kept in each contract that what is read is listed: each part tells it of its own, and no proof of it is written.
fn step(f: Fields) -> Option<Entry>
    ensures value { result ≡ step_of f }
    ensures listed { ListedIf result }
{
    let window = Window {
        counted: counted(f.k)?,
        first: f.u,
        last: f.v,
    };
    match f {
        Fields { a, b, next: 0, .. } => Some(Entry::Step {
            window,
            tail: a,
            conditions: b,
        }),
        _ => None,
    }
}

/// The sides of a choice, a both or a then, which have the same contents.
fn sides(f: Fields) -> Option<(u16, u16)>
    ensures { result ≡ sides_of f }
{
    match f {
        Fields {
            k: 0,
            a,
            b,
            next: 0,
            u: 0,
            v: 0,
        } => Some((a, b)),
        _ => None,
    }
}

fn call(f: Fields) -> Option<Entry>
    ensures value { result ≡ call_of f }
    ensures listed { ListedIf result }
{
    match f {
        Fields {
            k: k @ 1..=16,
            a: 0,
            b,
            next: 0,
            u: 0,
            v: 0,
        } => Some(Entry::Call {
            template: k,
            arguments: b,
        }),
        _ => None,
    }
}

fn template(f: Fields) -> Option<Entry>
    ensures value { result ≡ template_of f }
    ensures listed { ListedIf result }
{
    match f {
        Fields {
            k: k @ 1..=16,
            a,
            b: 0,
            next,
            u: 0,
            v: 0,
        } => Some(Entry::Template {
            number: k,
            body: a,
            next,
        }),
        _ => None,
    }
}

/// The test of a mode, with its slot b and its numbers u and v.
fn test(mode: u16, b: u16, u: u32, v: u32) -> Option<Test>
    ensures value { result ≡ test_of mode b u v }
    ensures listed { TestIf result }
{
    match (mode, b, u, v) {
        (1, 0, _, 0) => Some(Test::Equals(u)),
        (2, 0, _, _) => Some(Test::Between(u, v)),
        (3, 0..=7, 0, 0) => Some(Test::EqualsSlot(b as u8)),
        (4, 0..=7, 0, 0) => Some(Test::Put(b as u8)),
        (5, 0..=7, _, 0) => Some(Test::AtLeastSlotPlus(b as u8, u)),
        (6, 0, _, _) => Some(Test::Near(u.cast_signed(), v)),
        _ => None,
    }
}

fn condition(f: Fields) -> Option<Entry>
    ensures value { result ≡ condition_of f }
    ensures listed { ListedIf result }
{
    let test = test(f.a, f.b, f.u, f.v)?;
    match f.k {
        1..=4 => Some(Entry::Condition {
            field: f.k,
            test,
            next: f.next,
        }),
        _ => None,
    }
}

/// What fills a slot: the constant u, or the slot b.
fn filling(sort: u16, b: u16, u: u32) -> Option<Value>
    ensures value { result ≡ filling_of sort b u }
    ensures listed { ValueIf result }
{
    match (sort, b, u) {
        (1, 0, _) => Some(Value::Constant(u)),
        (2, 0..=7, 0) => Some(Value::Slot(b as u8)),
        _ => None,
    }
}

fn argument(f: Fields) -> Option<Entry>
    ensures value { result ≡ argument_of f }
    ensures listed { ListedIf result }
{
    let value = filling(f.a, f.b, f.u)?;
    match f {
        Fields {
            k: k @ 0..=7,
            next,
            v: 0,
            ..
        } => Some(Entry::Argument {
            slot: k,
            value,
            next,
        }),
        _ => None,
    }
}

/// The entry that sixteen bytes hold, by its tag.
fn by_tag(bytes: &[u8]) -> Option<Entry>
    requires { length bytes.now ≡ 16 }
    ensures value { result ≡ tagged bytes.now }
    ensures listed { ListedIf result }
{
    match bytes {
        [1, rest @ ..] => plain(behind(rest), Entry::Done),
        [2, rest @ ..] => plain(behind(rest), Entry::Lost),
        [3, rest @ ..] => step(behind(rest)),
        [4, rest @ ..] => sides(behind(rest)).map(|(left, right)| Entry::Choice { left, right }),
        [5, rest @ ..] => sides(behind(rest)).map(|(left, right)| Entry::Both { left, right }),
        [6, rest @ ..] => sides(behind(rest)).map(|(left, right)| Entry::Then { left, right }),
        [7, rest @ ..] => call(behind(rest)),
        [8, rest @ ..] => template(behind(rest)),
        [9, rest @ ..] => condition(behind(rest)),
        [10, rest @ ..] => argument(behind(rest)),
        _ => None,
    }
}

/// The entry that sixteen bytes hold, if its tag and its values are listed and it has zeros elsewhere.
pub fn decode(bytes: &[u8]) -> Option<Entry>
    ensures value { result ≡ entry_of bytes.now }
    ensures listed { ListedIf result }
{
    if bytes.len() == ENTRY_BYTES {
        by_tag(bytes)
    } else {
        None
    }
}
