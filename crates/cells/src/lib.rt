// Claiming a cell, releasing one, and the size. The chain is walked from its head to the cell's place; of the links before that
// place only the last is rewritten.
// By hand: base and check are two parameters, here and wherever arrays are edited. A type that holds two `&mut` has to promise in each
// contract that it still holds the same two, and what is shown by the two would stand there as before.
#![tactic(auto)]

ghost use Rattle.std.specs.Prelude.{true, ◌≡◌, max, set};
ghost use Rattle.numbers.specs.Stored.{negative};
ghost use Rattle.rules.specs.WhatTheIndexDoes.{is_row};
ghost use Rattle.rules.specs.Table.{free, largest_used};
ghost use Rattle.rules.specs.DeletionAndCompaction.{trimmed};
ghost use Rattle.placing.specs.Search.{Walks, Precedes};
ghost use Rattle.cells.specs.Edits.{Shown, SomeTable, EveryTable, sized, holding, claimed, Widens, Shrinks, Claims, Releases};

use numbers::{Minus, Plus, Side};
use rules::{Cell, Row};

// The unused cell u becomes a child of s, without a base yet. The size grows where u lies past it; cells skipped become free.
pub fn claim(base: &mut [i32], check: &mut [i32], u: Cell, s: Cell)
    requires { SomeTable (Claims base.old check.old u.0 s.0) }
    ensures { EveryTable (Claims base.old check.old u.0 s.0) (λ t. Shown base.new check.new (claimed t u.0 s.0)) }
{
    widen(base, check, u.0);
    let p = prior(check, u);
    let n = numbers::at::<Minus>(check, u.0);
    numbers::put::<Minus>(check, p.0, n);
    numbers::put::<Plus>(check, u.0, s.0);
}

// The used cell u becomes free, and is linked at its ascending place.
pub fn release(base: &mut [i32], check: &mut [i32], u: Cell)
    requires { SomeTable (Releases base.old check.old u.0) }
    ensures { EveryTable (Releases base.old check.old u.0) (λ t. Shown base.new check.new (holding t u.0 free)) }
{
    let p = prior(check, u);
    let n = numbers::at::<Minus>(check, p.0);
    numbers::put::<Minus>(check, p.0, u.0);
    numbers::put::<Minus>(check, u.0, n);
    numbers::put::<Plus>(base, u.0, 0);
}

// The used cell u is a leaf with this row.
pub fn put_row(base: &mut [i32], u: Cell, row: Row)
    requires { is_row row.0 ≡ true }
    ensures { base.new ≡ set base.old u.0 (negative row.0) }
{
    numbers::put::<Minus>(base, u.0, row.0 as usize);
}

// The last cell on the chain below u, or cell 0, the header.
fn prior(check: &[i32], u: Cell) -> Cell
    requires { Walks check.now u.0 }
    ensures { Precedes check.now u.0 result.0 }
{
    let mut p = 0;
    let mut n = numbers::at::<Minus>(check, 0);
    while n < u.0 {
        p = n;
        n = numbers::known::<Minus>(check, p);
    }
    Cell(p)
}

// The size grows to n where it is less; the cells passed become free. The last link already names the first of them.
pub fn widen(base: &mut [i32], check: &mut [i32], n: usize)
    requires { SomeTable (Widens base.old check.old n) }
    ensures { EveryTable (Widens base.old check.old n) (λ t. Shown base.new check.new (sized t (max t.size n))) }
{
    let size = numbers::at::<Plus>(base, 0);
    if size < n {
        for u in size + 1..=n {
            numbers::put::<Minus>(check, u, u + 1);
        }
        numbers::put::<Plus>(base, 0, n);
    }
}

// The size falls to n; the cells past it become 0. The last link before them already ends the chain.
pub fn shrink(base: &mut [i32], check: &mut [i32], n: usize)
    requires { SomeTable (Shrinks base.old check.old n) }
    ensures { EveryTable (Shrinks base.old check.old n) (λ t. Shown base.new check.new (sized t n)) }
{
    let size = numbers::at::<Plus>(base, 0);
    check[n + 1..=size].fill(0);
    numbers::put::<Plus>(base, 0, n);
}

// The size becomes the largest used cell.
pub fn trim(base: &mut [i32], check: &mut [i32])
    requires { SomeTable (Shown base.old check.old) }
    ensures { EveryTable (Shown base.old check.old) (λ t. Shown base.new check.new (trimmed t.cells t.size)) }
{
    let n = largest_used(base, check);
    shrink(base, check, n.0);
}

// The largest used cell.
pub fn largest_used(base: &[i32], check: &[i32]) -> Cell
    requires { SomeTable (Shown base.now check.now) }
    ensures { EveryTable (Shown base.now check.now) (λ t. result.0 ≡ largest_used t.cells t.size) }
{
    let size = numbers::at::<Plus>(base, 0);
    let last = check[..=size].iter().rposition(|x| 0 < Plus::read(*x));
    Cell(last.unwrap_or(1))
}
