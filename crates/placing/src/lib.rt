// Document 01, 'Placement': the base for a set of codes, sought along the chain of empty cells.
// By hand: base and check are two parameters, as in `cells`.
#![tactic(auto)]

ghost use Rattle.std.specs.Prelude.{◌≡◌, ℕ, ◌≤◌, ◌<◌, length};
ghost use Rattle.rules.specs.WhatTheIndexDoes.{GREATEST};
ghost use Rattle.rules.specs.ASoundTable.{size_at};
ghost use Rattle.rules.specs.Placement.{least_of, greatest_of, opens};
ghost use Rattle.tree.specs.Members.{Among};
ghost use Rattle.placing.specs.Search.{taken_at, Codes, LastStored, Passes, Passed, Searches, Finds};

use numbers::{Minus, Plus};

// What the inner search finds at the size that base[0] states. Where the chain names every free cell, that is the placed base; but
// this promise is the search's own, chains with gaps included, so that trying 1, 2, 3 and upward does not meet it.
pub fn place(base: &[i32], check: &[i32], codes: &[usize]) -> usize
    requires { Searches check.now (size_at base.now) codes.now }
    ensures { Finds check.now (size_at base.now) codes.now result }
{
    seek(check, numbers::at::<Plus>(base, 0), codes)
}

// The inner search, along any ascending chain of free cells that ends at size + 1: the smallest q of 1 or more whose least
// q + code is on that chain or past the size and for which every q + code is unused. In a dense table one look at a base's greatest
// cell shuts most bases out; all codes are tried where that cell is unused.
pub fn seek(check: &[i32], size: usize, codes: &[usize]) -> usize
    requires { Searches check.now size codes.now }
    ensures { Finds check.now size codes.now result }
{
    let low = least(codes);
    let span = greatest(codes) - low;
    let last = last_stored(check, size);
    let stored = Stored { check, last };
    let mut u = stored.pass_over(span, numbers::at::<Minus>(check, 0));
    while u <= last {
        if low < u && stored.opens(codes, u - low) {
            return u - low;
        }
        u = stored.pass_over(span, numbers::known::<Minus>(check, u));
    }
    // Past the chain's end every base opens.
    (size + 1).saturating_sub(low).max(1)
}

// The last cell up to the size that the array holds. What lies past it is unused, so one test serves for the size and the array.
fn last_stored(check: &[i32], size: usize) -> usize
    requires { 0 < length check.now }
    ensures { LastStored check.now size result }
{
    size.min(check.len() - 1)
}

// The cells up to that one, by check.
#[derive(Clone, Copy)]
struct Stored<'a> {
    check: &'a [i32],
    last: usize,
    ghost inside: { last < length check.now },
}

impl<'a> Stored<'a> {
    // Along the chain, from a cell on it, past the bases whose greatest cell is used: it lies span cells after the least.
    fn pass_over(self, span: usize, from: usize) -> usize
        requires { Passes self.check.now self.last span from }
        ensures { Passed self.entry.check.now self.entry.last span from result }
    {
        let mut u = from;
        while u + span <= self.last && numbers::is_plus_in(self.check, u + span) {
            u = numbers::known::<Minus>(self.check, u);
        }
        u
    }

    // Whether the cell u is used.
    fn is_taken(self, u: usize) -> bool
        ensures { result ≡ taken_at self.entry.check.now self.entry.last u }
    {
        u <= self.last && numbers::is_plus_in(self.check, u)
    }

    // Whether every q + code is unused. The first code is tried last: most often it is the least, whose cell is on the chain.
    fn opens(self, codes: &[usize], q: usize) -> bool
        requires near { q ≤ 65536 }
        requires wanted { Codes codes.now }
        ensures { result ≡ opens (taken_at self.entry.check.now self.entry.last) codes.now q }
    {
        self.are_unused(&codes[1..], q) && !self.is_taken(q + codes[0])
    }

    // The same of codes in their order, which may be none.
    fn are_unused(self, codes: &[usize], q: usize) -> bool
        requires near { q ≤ 65536 }
        requires small { (c : ℕ) → Among c codes.now → c ≤ GREATEST }
        ensures { result ≡ opens (taken_at self.entry.check.now self.entry.last) codes.now q }
    {
        codes.iter().all(|code| !self.is_taken(q + *code))
    }
}

// The least of some codes. A fold from the first one and not `min`, whose case of no codes would have the search read codes[0] anew
// for each base that it tries.
fn least(codes: &[usize]) -> usize
    requires { 0 < length codes.now }
    ensures { result ≡ least_of codes.now }
{
    codes[1..]
        .iter()
        .fold(codes[0], |least, code| least.min(*code))
}

// The greatest of some codes.
pub fn greatest(codes: &[usize]) -> usize
    ensures { result ≡ greatest_of codes.now }
{
    codes.iter().copied().max().unwrap_or(0)
}
