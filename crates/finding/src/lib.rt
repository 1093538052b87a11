// Document 01, 'Finding': the walk through two arrays of any contents. At each step the rest of the identifier is handed on as a part of
// the caller's slice, together with the cell reached.
#![tactic(auto)]

ghost use Rattle.std.specs.Prelude.{◌≤◌, ◌<◌, ◌≡◌, leb, length, get_or};
ghost use Rattle.numbers.specs.Stored.{plus_at, Reads};
ghost use Rattle.rules.specs.WhatTheIndexDoes.{GREATEST};
ghost use Rattle.rules.specs.Options.{some_cell, some_row};
ghost use Rattle.rules.specs.Finding.{next_at, leaf_after, row_of};
ghost use Rattle.finding.specs.Reaching.{IsCell, step_at, Walked, LooksUp, found_in, row_or_key};

use numbers::{Minus, Plus, Side};
use rules::{Alphabet, Answer, Arrays, Cell, Done, Refusal, Row};

// Where a walk stopped, and how many characters were found.
#[derive(Clone, Copy)]
pub struct Reached {
    pub cell: Cell,
    pub met: usize,
}

// The same, and the row found.
#[derive(Clone, Copy)]
pub struct Looked {
    pub reached: Reached,
    pub row: Option<Row>,
}

// Looks a text up: KEY where it is no identifier, ABSENT, or done with the row. The characters that the walk met have codes, so that
// only what is left is asked for them.
pub fn row(arrays: Arrays, key: &[u8]) -> Answer
    ensures { result ≡ row_or_key arrays.entry.base.now arrays.entry.check.now key.now }
{
    if !rules::is_right_length(key) {
        return Err(Refusal::Key);
    }
    let looked = look_up(arrays, key);
    let met = looked.reached.met;
    if !rules::is_coded(&key[met..]) {
        return Err(Refusal::Key);
    }
    found_or_absent(looked.row)
}

// The answer to a lookup that found this row.
pub fn found_or_absent(row: Option<Row>) -> Answer
    ensures { result ≡ found_in row }
{
    row.map(Done::Row).ok_or(Refusal::Absent)
}

// The walk along a text, and the row after its end mark.
pub fn look_up(arrays: Arrays, key: &[u8]) -> Looked
    ensures { LooksUp arrays.entry.base.now arrays.entry.check.now key.now result.reached.cell.0 result.reached.met result.row }
{
    let reached = walk(arrays, key);
    let row = held(arrays, key.len(), reached);
    Looked { reached, row }
}

// The walk from the root along a text's characters. It stops at one that has no code or leads nowhere.
fn walk(arrays: Arrays, key: &[u8]) -> Reached
    ensures { Walked arrays.entry.base.now arrays.entry.check.now key.now result.cell.0 result.met }
{
    let mut cell = Cell(1);
    for met in 0..key.len() {
        let Some(t) = step(arrays, cell, &key[met..]) else {
            return Reached { cell, met };
        };
        cell = t;
    }
    let met = key.len();
    Reached { cell, met }
}

// The row after the end mark, where a walk along so many characters found them all.
fn held(arrays: Arrays, characters: usize, reached: Reached) -> Option<Row>
    requires { IsCell arrays.base.now reached.cell.0 }
    ensures { result ≡ some_row (row_of arrays.entry.base.now
        (leaf_after arrays.entry.base.now arrays.entry.check.now characters (record { cell = reached.cell.0; met = reached.met }))) }
{
    if reached.met != characters {
        return None;
    }
    let leaf = next_within(arrays, reached.cell, Alphabet::END)?;
    row_of(arrays.base, leaf)
}

// The cell to which the first character of the rest leads from the cell reached: one without a code leads nowhere.
fn step(arrays: Arrays, reached: Cell, rest: &[u8]) -> Option<Cell>
    requires cell { IsCell arrays.base.now reached.0 }
    requires some { 0 < length rest.now }
    ensures { result ≡ some_cell (step_at arrays.entry.base.now arrays.entry.check.now reached.0 (get_or rest.now 0 0)) }
{
    let code = Alphabet::code(rest[0])?;
    next_within(arrays, reached, code)
}

// The cell to which a label leads from s, if it leads on.
pub fn next(arrays: Arrays, s: Cell, code: usize) -> Option<Cell>
    requires { code ≤ GREATEST }
    ensures { result ≡ some_cell (next_at arrays.entry.base.now arrays.entry.check.now s.0 code) }
{
    if s.0 == 0 || is_past(arrays.base, s) {
        return None;
    }
    next_within(arrays, s, code)
}

// The same from a cell that is known to be one of the arrays': the walk comes to no other.
fn next_within(arrays: Arrays, s: Cell, code: usize) -> Option<Cell>
    requires code_small { code ≤ GREATEST }
    requires cell { IsCell arrays.base.now s.0 }
    ensures { result ≡ some_cell (next_at arrays.entry.base.now arrays.entry.check.now s.0 code) }
{
    let q = base_of(arrays.base, s);
    if q == 0 {
        return None;
    }
    let t = Cell(q + code);
    if is_past(arrays.base, t) {
        return None;
    }
    numbers::is_at(arrays.check, t.0, s.0).then_some(t)
}

// The base of a cell that is known to lie within: no bound is tested.
fn base_of(base: &[i32], s: Cell) -> usize
    requires { s.0 < length base.now }
    ensures { Reads (plus_at base.now s.0) result }
{
    Plus::read(base[s.0])
}

// Whether t is past the last cell. The size has no say: element 0 is not read.
fn is_past(base: &[i32], t: Cell) -> bool
    ensures { result ≡ leb (length base.now) t.0 }
{
    base.len() <= t.0
}

// The row that a cell holds, if it holds one.
pub fn row_of(base: &[i32], leaf: Cell) -> Option<Row>
    ensures { result ≡ some_row (row_of base.now leaf.0) }
{
    if leaf.0 == 0 {
        return None;
    }
    let n = numbers::at::<Minus>(base, leaf.0);
    rules::is_row(n).then_some(Row(n as u32))
}
