// Document 01, 'Deletion and compaction', on a table known to be sound.
// By hand: base and check are two parameters, as in `cells`.
#![tactic(auto)]

ghost use Rattle.std.specs.Prelude.{true, ◌≡◌};
ghost use Rattle.rules.specs.WhatTheIndexDoes.{document01};
ghost use Rattle.rules.specs.ASoundTable.{sound};
ghost use Rattle.rules.specs.DeletionAndCompaction.{deleted};
ghost use Rattle.rules.specs.Commands.{delete, compact};
ghost use Rattle.rules.specs.Rendering.{chained};
ghost use Rattle.rules.specs.Calls.{sound_edit};
ghost use Rattle.rules.specs.Promised.{Edits};
ghost use Rattle.cells.specs.Edits.{Shown, SomeTable, EveryTable};
ghost use Rattle.deletion.specs.Deleting.{Deletes, Removes};

use numbers::Plus;
use rules::{Alphabet, Answer, Arrays, Cell, Done, Refusal};

// Deletes an identifier: ABSENT, or done with the row removed.
pub fn delete(base: &mut [i32], check: &mut [i32], key: &[u8]) -> Answer
    requires { Deletes base.old check.old key.now }
    ensures { Edits (sound_edit chained document01 base.old check.old (delete key.now)) result base.new check.new }
{
    let looked = finding::look_up(Arrays { base, check }, key);
    let Some(row) = looked.row else {
        return Err(Refusal::Absent);
    };
    remove(base, check, looked.reached.cell, key);
    Ok(Done::Row(row))
}

// The characters of the identifier lead to the cell s, and its end mark to a leaf. Frees the leaf, then each parent left without a
// child; then one step runs.
fn remove(base: &mut [i32], check: &mut [i32], s: Cell, key: &[u8])
    requires { SomeTable (Removes base.old check.old s.0 key.now) }
    ensures { EveryTable (Removes base.old check.old s.0 key.now) (λ t. Shown base.new check.new (deleted document01 t key.now)) }
{
    let leaf = numbers::at::<Plus>(base, s.0) + Alphabet::END;
    cells::release(base, check, Cell(leaf));
    pruning::prune(base, check, s, key.len());
    compaction::step(base, check);
}

// Compacts the table by at most n moves: done with the moves made.
pub fn compact(base: &mut [i32], check: &mut [i32], n: usize) -> Answer
    requires { sound document01 base.old check.old ≡ true }
    ensures { Edits (sound_edit chained document01 base.old check.old (compact n)) result base.new check.new }
{
    Ok(Done::Count(compaction::compact(base, check, n)))
}
