// Document 01, 'Insertion', on a table known to be sound. It is carried out label by label; where a placement in its course does
// not fit, each step takes back what it did, so that every element is as it was.
// By hand: base and check are two parameters, as in `cells`.
#![tactic(auto)]

ghost use Rattle.rules.specs.WhatTheIndexDoes.{document01, last_cell};
ghost use Rattle.rules.specs.Commands.{insert};
ghost use Rattle.rules.specs.Rendering.{chained};
ghost use Rattle.rules.specs.Calls.{sound_edit};
ghost use Rattle.cells.specs.Edits.{SomeTable, EveryTable};
ghost use Rattle.rules.specs.Promised.{Edits};
ghost use Rattle.growing.specs.Branches.{growth, Grown};
ghost use Rattle.insertion.specs.Inserting.{Inserts, Extends, PlacesAnew, MovesAndGrows, collision, extension, relocated, Extended};

use finding::Reached;
use numbers::Plus;
use rules::{Answer, Arrays, Cell, Done, Refusal, Row};

// Inserts an identifier: PRESENT, NO ROOM, or done with the number of children that changed cell.
pub fn insert(base: &mut [i32], check: &mut [i32], key: &[u8], row: Row) -> Answer
    requires { Inserts base.old check.old key.now row.0 }
    ensures { Edits (sound_edit chained document01 base.old check.old (insert key.now row.0)) result base.new check.new }
{
    let looked = finding::look_up(Arrays { base, check }, key);
    if let Some(held) = looked.row {
        return Err(Refusal::Present(held));
    }
    let Reached { cell, met } = looked.reached;
    extend(base, check, cell, &key[met..], row)
}

// At the node s, where the first label of the rest leads nowhere. If that label's cell is used or past the last cell, the node
// collides.
fn extend(base: &mut [i32], check: &mut [i32], s: Cell, rest: &[u8], row: Row) -> Answer
    requires { SomeTable (Extends base.old check.old s.0 rest.now row.0) }
    ensures { EveryTable (Extends base.old check.old s.0 rest.now row.0) (λ t. Extended (extension (last_cell base.old) t s.0 rest.now row.0) t result base.new check.new) }
{
    let u = numbers::at::<Plus>(base, s.0) + growing::label(rest);
    if base.len() <= u || 0 < numbers::at::<Plus>(check, u) {
        return collide(base, check, s, rest, row);
    }
    growing::grow(base, check, s, rest, row)?;
    Ok(Done::Count(0))
}

// The node s collides: its base becomes the placed base for its children's codes and the new one, and its children move.
fn collide(base: &mut [i32], check: &mut [i32], s: Cell, rest: &[u8], row: Row) -> Answer
    requires { SomeTable (Extends base.old check.old s.0 rest.now row.0) }
    ensures { EveryTable (Extends base.old check.old s.0 rest.now row.0) (λ t. Extended (collision (last_cell base.old) t s.0 rest.now row.0) t result base.new check.new) }
{
    let codes = moving::collect(base, check, s, growing::label(rest));
    place_anew(base, check, s, rest, row, codes.as_slice())
}

// Seeks the base for these codes: the new one and behind it those of the children of s. The base has to fit.
fn place_anew(
    base: &mut [i32],
    check: &mut [i32],
    s: Cell,
    rest: &[u8],
    row: Row,
    codes: &[usize],
) -> Answer
    requires { SomeTable (PlacesAnew base.old check.old s.0 rest.now row.0 codes.now) }
    ensures { EveryTable (PlacesAnew base.old check.old s.0 rest.now row.0 codes.now) (λ t. Extended (collision (last_cell base.old) t s.0 rest.now row.0) t result base.new check.new) }
{
    let q = placing::place(base, check, codes);
    let far = q + placing::greatest(codes);
    if base.len() <= far {
        return Err(Refusal::NoRoom);
    }
    move_and_grow(base, check, s, rest, row, q, far, &codes[1..])?;
    Ok(Done::Count(codes.len() - 1))
}

// The children of s, whose codes these are, move to base q, and the rest grows from there. Where a later label does not fit, they
// go back to where they were: NO ROOM.
// By hand: eight parameters. Its contract speaks of each of them by itself, so that a struct would only be taken apart again.
fn move_and_grow(
    base: &mut [i32],
    check: &mut [i32],
    s: Cell,
    rest: &[u8],
    row: Row,
    q: usize,
    far: usize,
    codes: &[usize],
) -> Result<(), Refusal>
    requires { SomeTable (MovesAndGrows base.old check.old s.0 rest.now row.0 q far codes.now) }
    ensures { EveryTable (MovesAndGrows base.old check.old s.0 rest.now row.0 q far codes.now) (λ t. Grown (growth (last_cell base.old) (relocated t s.0 q far) s.0 rest.now row.0) t result base.new check.new) }
{
    let size = numbers::at::<Plus>(base, 0);
    let b = numbers::at::<Plus>(base, s.0);
    cells::widen(base, check, far);
    moving::relocate(base, check, s, q, codes);
    let grown = growing::grow(base, check, s, rest, row);
    if grown.is_err() {
        moving::relocate(base, check, s, b, codes);
        cells::shrink(base, check, size);
    }
    grown
}
