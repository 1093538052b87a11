// The cells that a deletion frees after the leaf: each parent left without a child.
// By hand: base and check are two parameters, as in `cells`.
#![tactic(auto)]

ghost use Rattle.std.specs.Prelude.{◌≡◌};
ghost use Rattle.rules.specs.WhatTheIndexDoes.{GREATEST, document01};
ghost use Rattle.rules.specs.Table.{childless};
ghost use Rattle.rules.specs.DeletionAndCompaction.{prune};
ghost use Rattle.cells.specs.Edits.{Shown, SomeTable, EveryTable, celled};
ghost use Rattle.pruning.specs.Parents.{Looks, SomePath, EveryPath, Prunes};

use numbers::Plus;
use rules::{Alphabet, Cell};

// The cell u lies so many labels below the root. If it is left without a child it becomes free, and its parent is looked at in its
// turn; the root never becomes free, but gets base 1.
pub fn prune(base: &mut [i32], check: &mut [i32], u: Cell, depth: usize)
    requires { SomePath (λ path. SomeTable (Prunes base.old check.old u.0 depth path)) }
    ensures { EveryPath (λ path. EveryTable (Prunes base.old check.old u.0 depth path) (λ t. Shown base.new check.new (celled t (prune document01 t.cells path)))) }
{
    if !is_childless(base, check, u) {
        return;
    }
    if depth == 0 {
        moving::relocate(base, check, Cell(1), 1, &[]);
        return;
    }
    let s = numbers::at::<Plus>(check, u.0);
    cells::release(base, check, u);
    prune(base, check, Cell(s), depth - 1);
}

// Whether no label leads on from s.
fn is_childless(base: &[i32], check: &[i32], s: Cell) -> bool
    requires { SomeTable (Looks base.now check.now s.0) }
    ensures { EveryTable (Looks base.now check.now s.0) (λ t. result ≡ childless t.cells s.0 GREATEST) }
{
    // Behind the end mark stand the codes of its children.
    let codes = moving::collect(base, check, s, Alphabet::END);
    codes.as_slice().len() == 1
}
