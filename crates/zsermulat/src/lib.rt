// The library for C: the eight public calls under plain names, each slice a pointer and a length. A call's answer is handed over as one
// 64-bit number, which holds the answer's number and its value; include/zsermulat.h has the functions that take it apart. As in
// `index`, none of the calls asks anything of its caller, and each promise determines the answer and all that is lent.
#![tactic(auto)]

ghost use Rattle.std.specs.Prelude.{◌≡◌, ◌<◌};
ghost use Rattle.rules.specs.Answers.{value};
ghost use Rattle.rules.specs.WhatTheIndexDoes.{document01};
ghost use Rattle.rules.specs.Rendering.{chained};
ghost use Rattle.rules.specs.Calls.{fresh_call, find_call, insert_call, delete_call, compact_call, audit_call, list_call, run_call};
ghost use Rattle.zsermulat.specs.Packed.{PLACE, packed, Packs, EditsPacked, WritesPacked, RunsPacked};

use rules::{Answer, Row};

// What an answer's number counts for: 2^60.
const PLACE: u64 = 1 << 60;

// An answer as one number: its own number in the upper 4 bits, its value in the lower 60.
// By hand: no `From`, which may not ask that the value be small.
#[tactic(auto, using(crate::proofs::Packing::number_most), unfolding(crate::specs::Packed::packed))]
fn pack(answer: Answer) -> u64
    requires { value answer < PLACE }
    ensures { result ≡ packed answer }
{
    rules::number(answer) as u64 * PLACE + rules::value(answer) as u64
}

// Each of these is the call of `index` that has its name; include/zsermulat.h says in C's words what it answers.
// By hand: an export for each call, since C has no generics.

#[tactic(auto, using(crate::proofs::Packing::handed, crate::proofs::Packing::fresh_small))]
#[unsafe(no_mangle)]
pub extern "C" fn zs_fresh(base: &mut [i32], check: &mut [i32]) -> u64
    ensures { EditsPacked (fresh_call document01 base.old check.old) result base.new check.new }
{
    pack(index::fresh(base, check))
}

#[tactic(auto, using(crate::proofs::Packing::handed, crate::proofs::Packing::find_small))]
#[unsafe(no_mangle)]
pub extern "C" fn zs_find(base: &[i32], check: &[i32], key: &[u8]) -> u64
    ensures { Packs (find_call document01 base.now check.now key.now) result }
{
    pack(index::find(base, check, key))
}

#[tactic(auto, using(crate::proofs::Packing::handed, crate::proofs::Packing::edit_small))]
#[unsafe(no_mangle)]
pub extern "C" fn zs_insert(base: &mut [i32], check: &mut [i32], key: &[u8], row: u32) -> u64
    ensures { EditsPacked (insert_call chained document01 base.old check.old key.now row) result base.new check.new }
{
    pack(index::insert(base, check, key, Row(row)))
}

#[tactic(auto, using(crate::proofs::Packing::handed, crate::proofs::Packing::edit_small))]
#[unsafe(no_mangle)]
pub extern "C" fn zs_delete(base: &mut [i32], check: &mut [i32], key: &[u8]) -> u64
    ensures { EditsPacked (delete_call chained document01 base.old check.old key.now) result base.new check.new }
{
    pack(index::delete(base, check, key))
}

#[tactic(auto, using(crate::proofs::Packing::handed, crate::proofs::Packing::edit_small))]
#[unsafe(no_mangle)]
pub extern "C" fn zs_compact(base: &mut [i32], check: &mut [i32], n: usize) -> u64
    ensures { EditsPacked (compact_call chained document01 base.old check.old n) result base.new check.new }
{
    pack(index::compact(base, check, n))
}

#[tactic(auto, using(crate::proofs::Packing::handed, crate::proofs::Packing::audit_small))]
#[unsafe(no_mangle)]
pub extern "C" fn zs_audit(base: &[i32], check: &[i32]) -> u64
    ensures { Packs (audit_call chained document01 base.now check.now) result }
{
    pack(index::audit(base, check))
}

#[tactic(auto, using(crate::proofs::Packing::handed, crate::proofs::Packing::list_small))]
#[unsafe(no_mangle)]
pub extern "C" fn zs_list(base: &[i32], check: &[i32], out: &mut [u8]) -> u64
    ensures { WritesPacked (list_call chained document01 base.now check.now out.old) result out.new }
{
    pack(index::list(base, check, out))
}

#[tactic(auto, using(crate::proofs::Packing::handed, crate::proofs::Packing::run_small))]
#[unsafe(no_mangle)]
pub extern "C" fn zs_run(
    base: &mut [i32],
    check: &mut [i32],
    sheet: &[u8],
    answers: &mut [u8],
) -> u64
    ensures { RunsPacked (run_call chained document01 base.old check.old sheet.now answers.old) result base.new check.new answers.new }
{
    pack(index::run(base, check, sheet, answers))
}
