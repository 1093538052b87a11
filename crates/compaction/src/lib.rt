// Compaction: steps that move the children of one node to a smaller base, as long as that is possible.
// By hand: base and check are two parameters, as in `cells`.
#![tactic(auto)]

ghost use Rattle.rules.specs.WhatTheIndexDoes.{document01};
ghost use Rattle.rules.specs.DeletionAndCompaction.{compaction_step, compacted};
ghost use Rattle.cells.specs.Edits.{SomeTable, EveryTable};
ghost use Rattle.compaction.specs.Lowering.{Steps, LowersChildren, lowering, Moved, move_count};

use numbers::Plus;
use rules::{Alphabet, Cell};

// Trims the size as a step does, then repeats steps until n moves are made or a step moves nothing. Gives the moves made.
pub fn compact(base: &mut [i32], check: &mut [i32], n: usize) -> usize
    requires { SomeTable (Steps base.old check.old) }
    ensures { EveryTable (Steps base.old check.old) (λ t. Moved (compacted document01 n t) result base.new check.new) }
{
    cells::trim(base, check);
    for made in 0..n {
        if !step(base, check) {
            return made;
        }
    }
    n
}

// One step. In every case the size then becomes the largest used cell. Gives whether it moved a node's children.
pub fn step(base: &mut [i32], check: &mut [i32]) -> bool
    requires { SomeTable (Steps base.old check.old) }
    ensures { EveryTable (Steps base.old check.old) (λ t. Moved (compaction_step document01 t) (move_count result) base.new check.new) }
{
    let moved = lower(base, check);
    cells::trim(base, check);
    moved
}

// Takes the largest used cell. If that is the root, no move; otherwise its parent's children, itself among them, are looked at.
fn lower(base: &mut [i32], check: &mut [i32]) -> bool
    requires { SomeTable (Steps base.old check.old) }
    ensures { EveryTable (Steps base.old check.old) (λ t. Moved (lowering t) (move_count result) base.new check.new) }
{
    let top = cells::largest_used(base, check);
    if top.0 == 1 {
        return false;
    }
    let s = numbers::at::<Plus>(check, top.0);
    let codes = moving::collect(base, check, Cell(s), Alphabet::END);
    lower_children(base, check, Cell(s), &codes.as_slice()[1..])
}

// The children of s, whose codes these are, move to their placed base if that is smaller than the base held.
fn lower_children(base: &mut [i32], check: &mut [i32], s: Cell, codes: &[usize]) -> bool
    requires { SomeTable (LowersChildren base.old check.old s.0 codes.now) }
    ensures { EveryTable (LowersChildren base.old check.old s.0 codes.now) (λ t. Moved (lowering t) (move_count result) base.new check.new) }
{
    let q = placing::place(base, check, codes);
    if numbers::at::<Plus>(base, s.0) <= q {
        return false;
    }
    moving::relocate(base, check, s, q, codes);
    true
}
