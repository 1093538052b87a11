// Document 01, 'A run', on a table known to be sound: the lines of a sheet are answered in turn, by the functions that the single
// calls hand on to after their audit.
// By hand: base and check are two parameters, as in `cells`, and so each contract asks for a sound table.
#![tactic(auto)]

ghost use Rattle.std.specs.Prelude.{true, ◌≡◌};
ghost use Rattle.std.proofs.Math.Option.{some};
ghost use Rattle.rules.specs.WhatTheIndexDoes.{document01};
ghost use Rattle.rules.specs.ASoundTable.{sound};
ghost use Rattle.rules.specs.Commands.{insert, delete, find, compact};
ghost use Rattle.rules.specs.Rendering.{chained};
ghost use Rattle.rules.specs.Calls.{sound_run};
ghost use Rattle.rules.specs.Promised.{Edits, Runs};
ghost use Rattle.sheets.specs.Answering.{AnswersLines, AllAnswered, line_edit};
ghost use Rattle.sheets.specs.Reading.{asked_or_none};

use reading::Command;
use rules::{Answer, Arrays, Done, Refusal, Row};

// A sheet's lines: how many there are, and where one ends.
mod lines;

// What a line says.
mod reading;

// Answers the sheet's lines: NO SPACE for the whole, or done with the number of them.
pub fn run(base: &mut [i32], check: &mut [i32], sheet: &[u8], answers: &mut [u8]) -> Answer
    requires { sound document01 base.old check.old ≡ true }
    ensures { Runs (sound_run chained document01 base.old check.old sheet.now answers.old) result base.new check.new answers.new }
{
    if answers.len() / 11 < lines::count(sheet) {
        return Err(Refusal::NoSpace);
    }
    Ok(Done::Count(answer(base, check, sheet, answers)))
}

// Answers each line in turn; each answer goes to the next part of the buffer. Gives the number of lines.
// By hand: `split` would look for the end of each line first, which most lines tell themselves (`reading`).
pub fn answer(base: &mut [i32], check: &mut [i32], sheet: &[u8], answers: &mut [u8]) -> usize
    requires { AnswersLines base.old check.old sheet.now answers.old }
    ensures { AllAnswered base.old check.old sheet.now answers.old result base.new check.new answers.new }
{
    let mut key = [0u8; 255];
    let mut rest = sheet;
    let mut count = 0;
    while !rest.is_empty() {
        let (command, end) = reading::read(rest, &mut key);
        let said = carry_out(base, check, command);
        text::put_answer(&mut answers[11 * count..], said);
        count += 1;
        rest = &rest[rest.len().min(end + 1)..];
    }
    count
}

// Carries out the command that a line is; LINE where it is none.
#[tactic(auto, using(crate::proofs::Carried::refused))]
fn carry_out(base: &mut [i32], check: &mut [i32], command: Option<Command>) -> Answer
    requires { sound document01 base.old check.old ≡ true }
    ensures { Edits (line_edit base.old check.old (asked_or_none command.entry)) result base.new check.new }
{
    match command {
        Some(Command::Insert(key, row)) => insert(base, check, key, row),
        Some(Command::Delete(key)) => delete(base, check, key),
        Some(Command::Find(key)) => find(base, check, key),
        Some(Command::Compact(n)) => compact(base, check, n),
        None => Err(Refusal::Line),
    }
}

// A line's insertion: KEY, NUMBER, then the insertion itself.
fn insert(base: &mut [i32], check: &mut [i32], key: &[u8], row: Row) -> Answer
    requires { sound document01 base.old check.old ≡ true }
    ensures { Edits (line_edit base.old check.old (some (insert key.now row.0))) result base.new check.new }
{
    if !rules::is_identifier(key) {
        return Err(Refusal::Key);
    }
    if !rules::is_row(row.0 as usize) {
        return Err(Refusal::Number);
    }
    insertion::insert(base, check, key, row)
}

// A line's deletion: KEY, then the deletion itself.
fn delete(base: &mut [i32], check: &mut [i32], key: &[u8]) -> Answer
    requires { sound document01 base.old check.old ≡ true }
    ensures { Edits (line_edit base.old check.old (some (delete key.now))) result base.new check.new }
{
    if !rules::is_identifier(key) {
        return Err(Refusal::Key);
    }
    deletion::delete(base, check, key)
}

// A line's lookup: KEY, then the walk.
// By hand: `finding::row` is both, but with a second caller it is no longer compiled as one function with its walk, and a find costs 40
// instructions more.
fn find(base: &[i32], check: &[i32], key: &[u8]) -> Answer
    requires { sound document01 base.now check.now ≡ true }
    ensures { Edits (line_edit base.now check.now (some (find key.now))) result base.now check.now }
{
    if !rules::is_identifier(key) {
        return Err(Refusal::Key);
    }
    let looked = finding::look_up(Arrays { base, check }, key);
    finding::found_or_absent(looked.row)
}

// A line's compaction: NUMBER, then the compaction itself.
fn compact(base: &mut [i32], check: &mut [i32], n: usize) -> Answer
    requires { sound document01 base.old check.old ≡ true }
    ensures { Edits (line_edit base.old check.old (some (compact n))) result base.new check.new }
{
    if rules::MOST_MOVES < n {
        return Err(Refusal::Number);
    }
    deletion::compact(base, check, n)
}
