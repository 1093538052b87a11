// The public calls. None of them asks anything of its caller: each has a promise for arrays of any lengths and contents and for
// any command, refused ones included, and it determines the answer and every element and byte that is lent.
// By hand: base and check are two parameters: that is what document 01's caller lends, and C.
#![tactic(auto)]

ghost use Rattle.rules.specs.WhatTheIndexDoes.{document01};
ghost use Rattle.rules.specs.Rendering.{chained};
ghost use Rattle.rules.specs.Calls.{fresh_call, find_call, insert_call, delete_call, compact_call, audit_call, list_call, run_call};
ghost use Rattle.rules.specs.Promised.{Answers, Edits, Writes, Runs};

use rules::{Answer, Arrays, Done, Refusal, Row};

// Makes the empty table, whatever the arrays held: SIZE, or done.
#[tactic(auto, using(crate::proofs::Stores::two_stores), unfolding(rules::specs::Calls::fresh_call, rules::specs::ASoundTable::fresh_base, rules::specs::ASoundTable::fresh_check))]
pub fn fresh(base: &mut [i32], check: &mut [i32]) -> Answer
    ensures { Edits (fresh_call document01 base.old check.old) result base.new check.new }
{
    Arrays::lent(base, check)?;
    base.fill(0);
    check.fill(0);
    base[0] = 1;
    base[1] = 1;
    check[0] = -2;
    check[1] = 1;
    Ok(Done::Count(0))
}

// Looks an identifier up: SIZE, KEY, ABSENT, or done with its row. It runs no audit and walks damaged cells safely.
#[tactic(auto, unfolding(rules::specs::Calls::find_call, finding::specs::Reaching::row_or_key))]
pub fn find(base: &[i32], check: &[i32], key: &[u8]) -> Answer
    ensures { Answers (find_call document01 base.now check.now key.now) result }
{
    let arrays = Arrays::lent(base, check)?;
    finding::row(arrays, key)
}

// Inserts an identifier with its row: SIZE, KEY, NUMBER, DAMAGED, PRESENT with the row held, NO ROOM, or done with the number of
// children that changed cell.
#[tactic(auto, unfolding(rules::specs::Calls::edit_call, rules::specs::Calls::stored, rules::specs::Calls::sound_edit, rules::specs::Commands::answered, rules::specs::Commands::key_allowed, rules::specs::Commands::number_allowed))]
pub fn insert(base: &mut [i32], check: &mut [i32], key: &[u8], row: Row) -> Answer
    ensures { Edits (insert_call chained document01 base.old check.old key.now row.0) result base.new check.new }
{
    Arrays::lent(base, check)?;
    if !rules::is_identifier(key) {
        return Err(Refusal::Key);
    }
    if !rules::is_row(row.0 as usize) {
        return Err(Refusal::Number);
    }
    if !audit::is_sound(base, check) {
        return Err(Refusal::Damaged);
    }
    insertion::insert(base, check, key, row)
}

// Deletes an identifier: SIZE, KEY, DAMAGED, ABSENT, or done with the row removed.
#[tactic(auto, unfolding(rules::specs::Calls::edit_call, rules::specs::Calls::stored, rules::specs::Calls::sound_edit, rules::specs::Commands::answered, rules::specs::Commands::key_allowed, rules::specs::Commands::number_allowed))]
pub fn delete(base: &mut [i32], check: &mut [i32], key: &[u8]) -> Answer
    ensures { Edits (delete_call chained document01 base.old check.old key.now) result base.new check.new }
{
    Arrays::lent(base, check)?;
    if !rules::is_identifier(key) {
        return Err(Refusal::Key);
    }
    if !audit::is_sound(base, check) {
        return Err(Refusal::Damaged);
    }
    deletion::delete(base, check, key)
}

// Compacts the table by at most n moves: SIZE, NUMBER, DAMAGED, or done with the moves made.
#[tactic(auto, unfolding(rules::specs::Calls::edit_call, rules::specs::Calls::stored, rules::specs::Calls::sound_edit, rules::specs::Commands::answered, rules::specs::Commands::key_allowed, rules::specs::Commands::number_allowed))]
pub fn compact(base: &mut [i32], check: &mut [i32], n: usize) -> Answer
    ensures { Edits (compact_call chained document01 base.old check.old n) result base.new check.new }
{
    Arrays::lent(base, check)?;
    if rules::MOST_MOVES < n {
        return Err(Refusal::Number);
    }
    if !audit::is_sound(base, check) {
        return Err(Refusal::Damaged);
    }
    deletion::compact(base, check, n)
}

// Says whether the arrays hold a sound table: SIZE, DAMAGED, or done.
#[tactic(auto, unfolding(rules::specs::Calls::audit_call))]
pub fn audit(base: &[i32], check: &[i32]) -> Answer
    ensures { Answers (audit_call chained document01 base.now check.now) result }
{
    Arrays::lent(base, check)?;
    if !audit::is_sound(base, check) {
        return Err(Refusal::Damaged);
    }
    Ok(Done::Count(0))
}

// Lists the identifiers with their rows, a line each: SIZE, DAMAGED, NO SPACE, or done with the bytes written. Bytes past them stay.
#[tactic(auto, unfolding(rules::specs::Calls::list_call))]
pub fn list(base: &[i32], check: &[i32], out: &mut [u8]) -> Answer
    ensures { Writes (list_call chained document01 base.now check.now out.old) result out.new }
{
    let arrays = Arrays::lent(base, check)?;
    if !audit::is_sound(base, check) {
        return Err(Refusal::Damaged);
    }
    listing::list(arrays, out)
}

// Answers the lines of a sheet in turn, as the single calls would: SIZE, DAMAGED or NO SPACE for the whole, and nothing is changed or
// written then; or done with the lines answered. Bytes past the answers stay.
#[tactic(auto, unfolding(rules::specs::Calls::run_call, rules::specs::Calls::audit_call))]
pub fn run(base: &mut [i32], check: &mut [i32], sheet: &[u8], answers: &mut [u8]) -> Answer
    ensures { Runs (run_call chained document01 base.old check.old sheet.now answers.old) result base.new check.new answers.new }
{
    audit(base, check)?;
    sheets::run(base, check, sheet, answers)
}
