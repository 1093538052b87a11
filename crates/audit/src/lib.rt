// Rules 1 to 7 of document 01, decided on arrays of any contents. No number met there leads outside them: a cell is read where it is
// known to lie within. Each cell is looked at twice, and the climbs to the root share their upper parts.
#![tactic(auto)]

ghost use Rattle.std.specs.Prelude.{◌≡◌, true, ◌≤◌, ◌<◌, length};
ghost use Rattle.numbers.specs.Stored.{plus_at};
ghost use Rattle.rules.specs.WhatTheIndexDoes.{document01};
ghost use Rattle.rules.specs.ASoundTable.{size_at, rule4, sound};
ghost use Rattle.audit.specs.Says.{Says};
ghost use Rattle.audit.specs.Kept.{Sized, Nought, PastNought, FirstKept, FreeKept, UsedKept};
ghost use Rattle.audit.specs.Marks.{marked, MarksPast, CellsMarked};
ghost use Rattle.audit.specs.Ways.{Starts, Climbed, WaysUpTo, FirstLook, SecondLook};

use numbers::{Minus, Plus, Side};
use rules::{Alphabet, Cell, LIMIT, LONGEST};

// Whether the two arrays hold a sound table.
pub fn is_sound(base: &[i32], check: &[i32]) -> bool
    ensures { result ≡ sound document01 base.now check.now }
{
    if !rules::right_lengths(base, check) {
        return false;
    }
    let size = numbers::at::<Plus>(base, 0);
    if size == 0 || base.len() <= size {
        return false;
    }
    let stated = Stated { base, check, size };
    if !stated.is_past_nought() {
        return false;
    }
    if size < SMALL {
        stated.are_rules_kept_in::<SMALL>()
    } else {
        stated.are_rules_kept_in::<LONGEST>()
    }
}

// A table whose size is below this gets small marks and notes: to clear the large ones costs more than to audit a small table.
const SMALL: usize = 4096;

// The most steps that a cell of a sound table is away from the root: an identifier's characters and its end mark.
const MOST: usize = LIMIT + 1;

// The arrays, and the size that base[0] states.
#[derive(Clone, Copy)]
struct Stated<'a> {
    base: &'a [i32],
    check: &'a [i32],
    size: usize,
    ghost sized: { Sized base.now size },
    ghost same_length: { length base.now ≡ length check.now },
}

impl<'a> Stated<'a> {
    // Rules 2 to 7 of a table whose size is below N, where rule 1 holds.
    fn are_rules_kept_in<const N: usize>(self) -> bool
        requires first_kept { FirstKept self.base.now self.check.now self.size }
        requires room { self.size < N }
        requires fits { N ≤ 65536 }
        ensures { result ≡ sound document01 self.entry.base.now self.entry.check.now }
    {
        let mut marks = [false; N];
        let mut notes = [0u8; N];
        self.are_rules_kept(&mut marks, &mut notes)
    }

    // Rules 2 to 7, with marks and notes as they are before the first look at the cells.
    fn are_rules_kept(self, parents: &mut [bool], depths: &mut [u8]) -> bool
        requires { FirstLook self.base.now self.check.now self.size parents.old depths.old }
        ensures { result ≡ sound document01 self.entry.base.now self.entry.check.now }
    {
        self.are_cells_kept(parents)
            && self.is_root_kept(parents)
            && self.are_ways_kept(parents, depths)
    }

    // Rule 1: whether every cell past the size is 0 in both arrays, from the last one down: a stray number at the end is met at once.
    fn is_past_nought(self) -> bool
        ensures { Says (PastNought self.entry.base.now self.entry.check.now) result }
    {
        for t in (self.size + 1..self.base.len()).rev() {
            if !numbers::are_nought_in(self.base, self.check, t) {
                return false;
            }
        }
        true
    }

    // Rules 2, 3 and 5, and what rules 6 and 7 say of a cell and its parent alone, at every cell but the root. The cells are
    // looked at downwards, so that the next greater free cell is the one met last. Each parent is marked on the way.
    fn are_cells_kept(self, parents: &mut [bool]) -> bool
        requires { MarksPast self.base.now self.check.now self.size parents.old }
        ensures { CellsMarked document01 self.entry.base.now self.entry.check.now parents.new result }
    {
        let mut next = self.size + 1;
        for t in (2..self.size + 1).rev() {
            if numbers::is_plus_in(self.check, t) {
                let parent = numbers::known::<Plus>(self.check, t);
                if !self.is_used_kept(Cell(t), Cell(parent)) {
                    return false;
                }
                parents[parent] = true;
            } else {
                if !self.is_free_kept(Cell(t), Cell(next)) {
                    return false;
                }
                next = t;
            }
        }
        numbers::at::<Minus>(self.check, 0) == next
    }

    // Rules 2 and 3 at a cell that is not used, with the next greater free cell.
    fn is_free_kept(self, t: Cell, next: Cell) -> bool
        ensures { Says (FreeKept self.entry.base.now self.entry.check.now t.0 next.0) result }
    {
        numbers::at::<Minus>(self.check, t.0) == next.0 && is_nought(self.base, t)
    }

    // Rule 5, rule 6 but for the child, and rule 7's two steps at least of a leaf, at a used cell other than the root, with its
    // parent. A parent up to the size that has a positive base is used, for a free cell's base is 0; that it is another cell
    // follows from the climb.
    fn is_used_kept(self, t: Cell, parent: Cell) -> bool
        requires { t.0 ≤ self.size }
        ensures { Says (UsedKept document01 self.entry.base.now t.0 parent.0) result }
    {
        if self.size < parent.0 || !numbers::is_plus_in(self.base, parent.0) {
            return false;
        }
        let q = numbers::known::<Plus>(self.base, parent.0);
        if t.0 <= q {
            return false;
        }
        match t.0 - q {
            Alphabet::END => parent.0 != 1 && rules::is_row(Minus::read(self.base[t.0])),
            2..=Alphabet::GREATEST => numbers::is_plus_in(self.base, t.0),
            _ => false,
        }
    }

    // Rule 4, where every parent is marked.
    fn is_root_kept(self, parents: &[bool]) -> bool
        requires { MarksPast self.base.now self.check.now 1 parents.now }
        ensures { result ≡ rule4 document01 self.entry.base.now self.entry.check.now }
    {
        if numbers::at::<Plus>(self.check, 1) != 1 {
            return false;
        }
        match numbers::at::<Plus>(self.base, 1) {
            0 => false,
            1 => true,
            _ => parents[1],
        }
    }

    // Rules 6 and 7 at every used cell but the root, where every parent is marked and used: an inner cell has a child, and each
    // comes to the root. The cells are looked at upwards, and how deep each lies is noted, so that a climb ends at the first cell
    // below the one where it started. The range ends at the size, for one that ends past it costs two instructions more a cell.
    fn are_ways_kept(self, parents: &[bool], depths: &mut [u8]) -> bool
        requires { SecondLook self.base.now self.check.now self.size parents.now depths.old }
        ensures { Says (WaysUpTo document01 self.entry.base.now self.entry.check.now (size_at self.entry.base.now)) result }
    {
        for below in 1..self.size {
            let t = below + 1;
            if !numbers::is_plus_in(self.check, t) {
                continue;
            }
            if !self.has_fruit(parents, Cell(t)) {
                return false;
            }
            let Some(depth) = self.climb(depths, Cell(t)) else {
                return false;
            };
            depths[t] = depth as u8;
        }
        true
    }

    // Whether a cell has a mark, if it has a positive base.
    fn has_fruit(self, parents: &[bool], t: Cell) -> bool
        requires { (t.0 < length self.base.now) × (t.0 < length parents.now) }
        ensures { Says (1 ≤ plus_at self.entry.base.now t.0 → marked parents.now t.0 ≡ true) result }
    {
        !numbers::is_plus_in(self.base, t.0) || parents[t.0]
    }

    // How many steps a used cell is away from the root; none where it takes more than the most.
    fn climb(self, depths: &[u8], t: Cell) -> Option<usize>
        requires { Starts self.check.now t.0 depths.now }
        ensures { Climbed document01 self.entry.check.now t.0 result }
    {
        let mut at = t.0;
        for steps in 1..=MOST {
            at = numbers::known::<Plus>(self.check, at);
            if at < t.0 {
                let depth = depths[at] as usize + steps;
                return (depth <= MOST).then_some(depth);
            }
        }
        None
    }
}

// Whether an array holds 0 at a cell.
fn is_nought(s: &[i32], t: Cell) -> bool
    ensures { Says (Nought s.now t.0) result }
{
    numbers::at::<Plus>(s, t.0) == 0 && numbers::at::<Minus>(s, t.0) == 0
}
