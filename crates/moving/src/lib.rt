// A node's children: their codes, and their move to another base, one child after another. The codes are taken before the first
// move; to ask for a cell's parent while children move is wrong, for one that has moved can stand where another is looked for.
// By hand: base and check are two parameters, as in `cells`.
#![tactic(auto)]

ghost use Rattle.std.specs.Prelude.{◌≡◌, List, [], ◌∷◌, ◌++◌, ℕ, ◌+◌, ◌≤◌, length, take};
ghost use Rattle.rules.specs.WhatTheIndexDoes.{GREATEST};
ghost use Rattle.rules.specs.Table.{child_codes};
ghost use Rattle.rules.specs.Insertion.{relocate};
ghost use Rattle.tree.specs.MovingInTurn.{hop};
ghost use Rattle.cells.specs.Edits.{Shown, SomeTable, EveryTable, celled};
ghost use Rattle.moving.specs.Children.{handed, Hands, Hops, Relocates, Collects};

use numbers::Plus;
use rules::{Alphabet, Cell};
use std::marker::Model;

// Some codes: at most as many as there are, and one more.
#[derive(Drop)]
pub struct Codes {
    room: [usize; Alphabet::GREATEST + 1],
    count: usize,
}

impl Model for Codes {
    ghost Value = { List ℕ };

    ghost view = { λ codes. take codes.count codes.room };

    ghost invariant = { λ codes. codes.count ≤ GREATEST + 1 };
}

impl Codes {
    fn one(code: usize) -> Codes
        ensures { result ≡ code ∷ [] }
    {
        let mut room = [0; Alphabet::GREATEST + 1];
        room[0] = code;
        Codes { room, count: 1 }
    }

    fn push(&mut self, code: usize)
        requires { length self.old ≤ GREATEST }
        ensures { self.new ≡ self.old ++ code ∷ [] }
    {
        self.room[self.count] = code;
        self.count += 1;
    }

    pub fn as_slice(&self) -> &[usize]
        ensures { result.now ≡ self.now }
    {
        &self.room[..self.count]
    }
}

// The code c and behind it the codes of the children of s, the greatest first.
pub fn collect(base: &[i32], check: &[i32], s: Cell, c: usize) -> Codes
    requires { SomeTable (Collects base.now check.now s.0) }
    ensures { EveryTable (Collects base.now check.now s.0) (λ t. result ≡ c ∷ child_codes t.cells s.0 GREATEST) }
{
    let b = numbers::at::<Plus>(base, s.0);
    let mut codes = Codes::one(c);
    for k in (1..=Alphabet::GREATEST).rev() {
        if numbers::is_at(check, b + k, s.0) {
            codes.push(k);
        }
    }
    codes
}

// The children of s, whose codes these are, move to base q.
pub fn relocate(base: &mut [i32], check: &mut [i32], s: Cell, q: usize, codes: &[usize])
    requires { SomeTable (Relocates base.old check.old s.0 q codes.now) }
    ensures { EveryTable (Relocates base.old check.old s.0 q codes.now) (λ t. Shown base.new check.new (celled t (relocate t.cells s.0 q))) }
{
    let b = numbers::at::<Plus>(base, s.0);
    for code in codes.iter().rev() {
        hop(base, check, Cell(b + *code), Cell(q + *code));
    }
    numbers::put::<Plus>(base, s.0, q);
}

// What the cell old holds goes to the unused cell new; its own children's check is set to new, and old becomes free.
fn hop(base: &mut [i32], check: &mut [i32], old: Cell, new: Cell)
    requires { SomeTable (Hops base.old check.old old.0 new.0) }
    ensures { EveryTable (Hops base.old check.old old.0 new.0) (λ t. Shown base.new check.new (celled t (hop t.cells old.0 new.0))) }
{
    let s = numbers::at::<Plus>(check, old.0);
    cells::claim(base, check, new, Cell(s));
    base[new.0] = base[old.0];
    hand(base, check, old, new);
    cells::release(base, check, old);
}

// The children of the cell old become those of the cell new.
fn hand(base: &[i32], check: &mut [i32], old: Cell, new: Cell)
    requires { SomeTable (Hands base.now check.old old.0 new.0) }
    ensures { EveryTable (Hands base.now check.old old.0 new.0) (λ t. Shown base.now check.new (celled t (handed t.cells old.0 new.0))) }
{
    let b = numbers::at::<Plus>(base, old.0);
    if b == 0 {
        return;
    }
    for k in 1..=Alphabet::GREATEST {
        if numbers::is_at(check, b + k, old.0) {
            numbers::put::<Plus>(check, b + k, new.0);
        }
    }
}
