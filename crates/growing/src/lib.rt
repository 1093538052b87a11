// A branch put below a node, label by label, and taken back where a placement does not fit: each step takes back what it did, so
// that every element is as it was.
// By hand: base and check are two parameters, as in `cells`.
#![tactic(auto)]

ghost use Rattle.std.specs.Prelude.{◌≡◌};
ghost use Rattle.rules.specs.WhatTheIndexDoes.{last_cell};
ghost use Rattle.cells.specs.Edits.{Shown, SomeTable, EveryTable};
ghost use Rattle.growing.specs.Branches.{Label, growth, placed_first, Leads, Grows, Retracts, Begun, retracted, Grown};

use numbers::Plus;
use rules::{Alphabet, Cell, Refusal, Row};

// From the node s, whose base leads to an unused cell for the first label of the rest: that cell is then used, and each further
// label gets the placed base of its one code at the node before it. NO ROOM where one of them does not fit; nothing has changed then.
// By hand: s, rest and row, here and in `insertion`. Node and rest are others at each label, so that one value of the three would be taken
// apart and made anew at each call.
pub fn grow(
    base: &mut [i32],
    check: &mut [i32],
    s: Cell,
    rest: &[u8],
    row: Row,
) -> Result<(), Refusal>
    requires { SomeTable (Grows base.old check.old s.0 rest.now row.0) }
    ensures { EveryTable (Grows base.old check.old s.0 rest.now row.0) (λ t. Grown (growth (last_cell base.old) t s.0 rest.now row.0) t result base.new check.new) }
{
    let size = numbers::at::<Plus>(base, 0);
    let u = claim_first(base, check, s, rest);
    let Some((_, further)) = rest.split_first() else {
        cells::put_row(base, u, row);
        return Ok(());
    };
    let Some(q) = place_first(base, check, further) else {
        retract(base, check, u, size);
        return Err(Refusal::NoRoom);
    };
    numbers::put::<Plus>(base, u.0, q);
    let grown = grow(base, check, u, further, row);
    if grown.is_err() {
        retract(base, check, u, size);
    }
    grown
}

// The cell to which the first label of the rest leads from s is claimed.
fn claim_first(base: &mut [i32], check: &mut [i32], s: Cell, rest: &[u8]) -> Cell
    requires { SomeTable (Leads base.old check.old s.0 rest.now) }
    ensures { EveryTable (Leads base.old check.old s.0 rest.now) (λ t. Begun s.0 rest.now t result.0 base.new check.new) }
{
    let u = Cell(numbers::at::<Plus>(base, s.0) + label(rest));
    cells::claim(base, check, u, s);
    u
}

// The base placed for the first label of the rest alone, if the cell to which it then leads is not past the last.
fn place_first(base: &[i32], check: &[i32], rest: &[u8]) -> Option<usize>
    requires { SomeTable (Shown base.now check.now) }
    ensures { EveryTable (Shown base.now check.now) (λ t. result ≡ placed_first (last_cell base.now) t rest.now) }
{
    let c = label(rest);
    let q = placing::place(base, check, &[c]);
    if base.len() <= q + c { None } else { Some(q) }
}

// Takes the claimed cell u back, and the size to what it was.
fn retract(base: &mut [i32], check: &mut [i32], u: Cell, size: usize)
    requires { SomeTable (Retracts base.old check.old u.0 size) }
    ensures { EveryTable (Retracts base.old check.old u.0 size) (λ t. Shown base.new check.new (retracted t u.0 size)) }
{
    cells::release(base, check, u);
    cells::shrink(base, check, size);
}

// The first label of what is left of an identifier: the code of its first character, or the end mark.
// By hand: 0 for a character without a code, as `first_label` has it, which is what is promised. Those who ask hold an identifier, so that
// an `Option` would be unwrapped at each call.
pub fn label(rest: &[u8]) -> usize
    ensures { Label rest.now result }
{
    match rest {
        [] => Alphabet::END,
        [first, ..] => Alphabet::code(*first).unwrap_or(0),
    }
}
