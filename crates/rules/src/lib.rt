// Document 01's types (rows and cells, kept apart, the arrays that can hold a table, the alphabet of label codes, what a call answers) and
// the tests of lengths, identifiers and rows that the calls ask. What the document says of them stands in specs/, a file for each of its
// sections.
#![tactic(auto)]

ghost use Rattle.std.specs.Prelude.{◌≡◌, ◌≤◌, length, IfOk, IfErr};
ghost use Rattle.rules.specs.Ranges.{within};
ghost use Rattle.rules.specs.WhatTheIndexDoes.{Code, Lent, Unfit, character_of, document01, right_lengths, is_identifier, coded, is_row};
ghost use Rattle.rules.specs.Options.{some_number};
ghost use Rattle.rules.specs.Answers.{number, value};

// A row's number. It is no cell: nothing can be looked up in the arrays by it.
#[derive(Clone, Copy, PartialEq, Eq)]
pub struct Row(pub u32);

impl Row {
    pub const GREATEST: usize = 1000000;
}

// A cell's number. It is no row: no call answers with one.
#[derive(Clone, Copy, PartialEq, Eq)]
pub struct Cell(pub usize);

// The label codes.
#[derive(Clone, Copy)]
pub struct Alphabet;

impl Alphabet {
    pub const END: usize = 1;

    pub const GREATEST: usize = 38;

    // The code of a character, if it has one.
    pub fn code(ch: u8) -> Option<usize>
        ensures { Code ch result }
    {
        match ch {
            b'a'..=b'z' => Some(ch as usize - 95),
            b'0'..=b'9' => Some(ch as usize - 20),
            b'-' => Some(Alphabet::GREATEST),
            _ => None,
        }
    }

    // The character of a code, if it has one: the end mark has none.
    pub fn character(code: usize) -> Option<u8>
        ensures { result ≡ some_number (character_of code) }
    {
        match code {
            2..=27 => Some((code + 95) as u8),
            28..=37 => Some((code + 20) as u8),
            Alphabet::GREATEST => Some(b'-'),
            _ => None,
        }
    }
}

// The greatest length of an identifier.
pub const LIMIT: usize = 32;

// The greatest length of the arrays.
pub const LONGEST: usize = 65536;

// The greatest number of moves that a compaction can be asked for.
pub const MOST_MOVES: usize = 65535;

// Whether arrays of these lengths can hold a table: equal lengths, 2 to 65,536 elements.
pub fn right_lengths(base: &[i32], check: &[i32]) -> bool
    ensures { result ≡ right_lengths base.now check.now }
{
    if base.len() != check.len() {
        return false;
    }
    2 <= base.len() && base.len() <= LONGEST
}

// Two arrays of any contents, as they are lent: base with 2 to 65,536 elements. What walks asks no more of their lengths.
#[derive(Clone, Copy)]
pub struct Arrays<'a> {
    pub base: &'a [i32],
    pub check: &'a [i32],
    ghost enough: { 2 ≤ length base.now },
    ghost few: { length base.now ≤ 65536 },
}

impl<'a> Arrays<'a> {
    // The arrays, if they can hold a table; or SIZE.
    pub fn lent(base: &'a [i32], check: &'a [i32]) -> Result<Arrays<'a>, Refusal>
        ensures lent { IfOk result (λ arrays. Lent base.now check.now arrays.base.now arrays.check.now) }
        ensures same_length { IfOk result (λ _. length base.now ≡ length check.now) }
        ensures refused { IfErr result (Unfit base.now check.now) }
    {
        if right_lengths(base, check) {
            Ok(Arrays { base, check })
        } else {
            Err(Refusal::Size)
        }
    }
}

// Whether it is an identifier: 1 to 32 characters, each with a code.
pub fn is_identifier(key: &[u8]) -> bool
    ensures { result ≡ is_identifier document01 key.now }
{
    is_right_length(key) && is_coded(key)
}

// Whether it has as many characters as an identifier: 1 to 32.
pub fn is_right_length(key: &[u8]) -> bool
    ensures { result ≡ within 1 document01.limit (length key.now) }
{
    1 <= key.len() && key.len() <= LIMIT
}

// Whether each character has a code.
pub fn is_coded(key: &[u8]) -> bool
    ensures { result ≡ coded document01 key.now }
{
    key.iter().all(|ch| Alphabet::code(*ch).is_some())
}

// Whether n is a row's number: 1 to 1,000,000.
pub fn is_row(n: usize) -> bool
    ensures { result ≡ is_row n }
{
    1 <= n && n <= Row::GREATEST
}

// What a call answers where it is done.
#[derive(Clone, Copy, PartialEq, Eq)]
pub enum Done {
    // A count: children that changed cell, moves, bytes or lines; 0 where the document names no value.
    Count(usize),
    // A row: the one found, or the one removed.
    Row(Row),
}

// Why a call is refused.
#[derive(Clone, Copy, PartialEq, Eq)]
pub enum Refusal {
    Size,
    Key,
    Number,
    Damaged,
    // With the row held.
    Present(Row),
    Absent,
    NoRoom,
    NoSpace,
    Line,
}

// What a call answers.
pub type Answer = Result<Done, Refusal>;

// The answer's number.
// By hand: no `From`, since an answer is turned into two numbers, this one and its value.
pub fn number(answer: Answer) -> u32
    ensures { result ≡ number answer }
{
    match answer {
        Ok(_) => 0,
        Err(Refusal::Size) => 1,
        Err(Refusal::Key) => 2,
        Err(Refusal::Number) => 3,
        Err(Refusal::Damaged) => 4,
        Err(Refusal::Present(_)) => 5,
        Err(Refusal::Absent) => 6,
        Err(Refusal::NoRoom) => 7,
        Err(Refusal::NoSpace) => 8,
        Err(Refusal::Line) => 9,
    }
}

// The answer's value.
pub fn value(answer: Answer) -> usize
    ensures { result ≡ value answer }
{
    match answer {
        Ok(Done::Count(n)) => n,
        Ok(Done::Row(row)) => row.0 as usize,
        Err(Refusal::Present(row)) => row.0 as usize,
        Err(_) => 0,
    }
}
