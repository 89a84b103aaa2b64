// The entries of lines that the first pass found right, read again. Every coordinate has one digit or two, and what was tested then is not tested again.
#![tactic(auto)]

ghost use Rattle.std.specs.Prelude.{Some, ◌≡◌, cond, ◌+◌, ◌-◌, ◌*◌, ◌≤◌, eqb, ltb};
ghost use Rattle.text.specs.Entries.{comma_at, pin_entry_at, edge_entry_at};
ghost use Rattle.known.specs.Short.{ShortNumber, ShortEntry};
ghost use Rattle.known.specs.Edges.{AllFrom, CanNext, NextGives, entries_most};
ghost use Rattle.known.specs.Pins as pins;

use text::{Entry, Numeral};

fn digit(b: u8) -> usize
    requires { 48 ≤ b }
    ensures { (result + 48 ≡ b) × (result ≤ 207) }
{
    b as usize - 48
}

// 1 for a comma, and 0 for a digit.
fn comma(b: u8) -> usize
    ensures value { result ≡ cond (ltb b 48) 1 0 }
    ensures upper_bound { result ≤ 1 }
{
    usize::from(b < b'0')
}

// The digit `first` before a comma, or with the digit b behind it.
fn digits(first: usize, b: u8) -> usize
    requires { first ≤ 207 }
    ensures { result ≡ cond (ltb b 48) first (10 * first + (b - 48)) }
{
    if b < 48 {
        return first;
    }
    let second = digit(b);
    10 * first + second
}

// The number of one digit or two that stands at `at`, and the place after the comma behind it.
fn coordinate_at(s: &[u8], at: usize) -> Numeral
    requires { ShortNumber (comma_at s.now at) }
    ensures { Some result ≡ comma_at s.now at }
{
    let first = digit(s[at]);
    let b = s[at + 1];
    let value = digits(first, b);
    let next = at + 3 - comma(b);
    Numeral { value, next }
}

// 1 for `n`, which is north.
fn way(b: u8) -> usize
    ensures { result ≡ cond (eqb b 110) 1 0 }
{
    usize::from(b == b'n')
}

// The edge that stands at `at`.
pub fn edge_at(s: &[u8], at: usize) -> Entry
    requires { ShortEntry (edge_entry_at s.now at) }
    ensures { Some result ≡ edge_entry_at s.now at }
{
    let x = coordinate_at(s, at);
    let y = coordinate_at(s, x.next);
    let n = y.next;
    let d = way(s[n]);
    let b = s[n + 1];
    Entry {
        x: x.value,
        y: y.value,
        third: d,
        next: n + 2,
        last: b == b'\n',
    }
}

// The pin that stands at `at`.
pub fn pin_at(s: &[u8], at: usize) -> Entry
    requires { ShortEntry (pin_entry_at s.now at) }
    ensures { Some result ≡ pin_entry_at s.now at }
{
    let x = coordinate_at(s, at);
    let y = coordinate_at(s, x.next);
    let n = y.next;
    let l = digit(s[n]);
    let b = s[n + 1];
    Entry {
        x: x.value,
        y: y.value,
        third: l,
        next: n + 2,
        last: b == b'\n',
    }
}

// The edges of a line that are still to be read: those from `at` on, if there are more.
#[derive(Drop)]
pub struct Edges<'a> {
    text: &'a [u8],
    at: usize,
    more: bool,
}

// The edges of the line that stands at `at`, one or more.
#[inline(always)]
pub fn edges_from(s: &[u8], at: usize) -> Edges
    ensures { AllFrom s.now at result }
{
    Edges {
        text: s,
        at,
        more: true,
    }
}

impl<'a> Iterator for Edges<'a> {
    type Item = Entry;

    ghost can_next = { CanNext };

    ghost next_gives = { NextGives };

    ghost remaining = { entries_most };

    #[inline(always)]
    fn next(&mut self) -> Option<Entry> {
        if !self.more {
            return None;
        }
        let e = edge_at(self.text, self.at);
        self.at = e.next;
        self.more = !e.last;
        Some(e)
    }
}

// The same of pins.
#[derive(Drop)]
pub struct Pins<'a> {
    text: &'a [u8],
    at: usize,
    more: bool,
}

// The pins of the line that stands at `at`, one or more.
#[inline(always)]
pub fn pins_from(s: &[u8], at: usize) -> Pins
    ensures { pins.AllFrom s.now at result }
{
    Pins {
        text: s,
        at,
        more: true,
    }
}

impl<'a> Iterator for Pins<'a> {
    type Item = Entry;

    ghost can_next = { pins.CanNext };

    ghost next_gives = { pins.NextGives };

    ghost remaining = { pins.entries_most };

    #[inline(always)]
    fn next(&mut self) -> Option<Entry> {
        if !self.more {
            return None;
        }
        let e = pin_at(self.text, self.at);
        self.at = e.next;
        self.more = !e.last;
        Some(e)
    }
}
