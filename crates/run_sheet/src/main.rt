// The program run_sheet: answers a sheet from standard input to standard output, over a fresh table of 4,096 elements. It reads what is
// there, answers the lines that are finished and writes their answers before it reads on; what it holds at a time is bounded, however
// long the sheet is. It has no exit status of its own: where the sheet could not be answered to its end, it says why in one line on
// standard error, and otherwise nothing.
#![tactic(auto)]

ghost use Rattle.std.specs.Prelude.{◌*◌, ◌≤◌, length};
ghost use Rattle.run_sheet.specs.Turns.{Begins, ReadBehind, Reached, Taken};

use std::fmt;
use std::io::{Read, Stdin, Stdout, Write};

// The elements of the table.
const LENGTH: usize = 4096;

// The bytes of the sheet that are held at a time: an unfinished line that was carried over, and what is read behind it.
const PART: usize = 4096;

// Room for as many answers as a part can have lines.
const ROOM: usize = 11 * PART;

// What the program works on: the table, a part of the sheet with so many bytes carried over in front, and the part's answers.
#[derive(Drop)]
struct Desk {
    base: [i32; LENGTH],
    check: [i32; LENGTH],
    buffer: [u8; PART],
    held: usize,
    answers: [u8; ROOM],
}

// How many lines a turn answered.
#[derive(Clone, Copy)]
enum Turn {
    // Those that a part finished; the sheet goes on.
    Part(usize),
    // The sheet has ended: at most the one without a line feed.
    Last(usize),
}

// Why the sheet is not answered to its end.
#[derive(Clone, Copy, Debug, PartialEq, Eq)]
enum Failure {
    Read,
    Write,
    TooManyParts,
}

impl fmt::Display for Failure {
    // The whole line is one text, so that it is one write.
    fn fmt<W: fmt::Write>(&self, f: &mut fmt::Formatter<W>) -> fmt::Result {
        f.write_str(match self {
            Failure::Read => "run_sheet: standard input could not be read\n",
            Failure::Write => "run_sheet: standard output could not be written\n",
            Failure::TooManyParts => "run_sheet: the sheet has too many parts\n",
        })
    }
}

fn main(rt: HostRuntime) {
    let mut desk = Desk {
        base: [0; LENGTH],
        check: [0; LENGTH],
        buffer: [0; PART],
        held: 0,
        answers: [0; ROOM],
    };
    // The lengths are right, so that it is done.
    let _ = index::fresh(&mut desk.base, &mut desk.check);
    if let Err(failure) = answer_all(rt.stdin(), rt.stdout(), &mut desk) {
        let mut errors = rt.stderr();
        let _ = write!(errors, "{failure}");
    }
}

// Has part after part answered and writes the answers, until the sheet ends. A proved loop has to end, and nothing says that a sheet
// does: so the turns are counted, up to a number that no run comes to.
fn answer_all(mut input: Stdin, mut output: Stdout, desk: &mut Desk) -> Result<(), Failure>
    requires { Begins desk.old }
{
    for _ in 0..u64::MAX {
        let got = read(&mut input, &mut desk.buffer, desk.held);
        match desk.answer_part(got)? {
            Turn::Part(lines) => write(&mut output, &desk.answers, lines)?,
            Turn::Last(lines) => return write(&mut output, &desk.answers, lines),
        }
    }
    Err(Failure::TooManyParts)
}

// Reads once, behind what is carried over; gives the number of bytes that were read.
// By hand: held beside the buffer, since its promise speaks of the bytes before it, which stay.
fn read(input: &mut Stdin, buffer: &mut [u8], held: usize) -> Result<usize, Failure>
    requires { held ≤ length buffer.old }
    ensures { ReadBehind buffer.old held result buffer.new }
{
    input.read(&mut buffer[held..]).map_err(|_| Failure::Read)
}

impl Desk {
    // Answers the lines that are finished with what was read behind what is carried over; or what is carried over, where nothing was
    // read, for then the sheet has ended.
    #[tactic(auto, using(crate::proofs::Turning::last_room, parts::proofs::InParts::all_counted))]
    fn answer_part(&mut self, got: Result<usize, Failure>) -> Result<Turn, Failure>
        requires { Reached self.old got }
        ensures { Taken self.old got self.new result }
    {
        let n = self.held + got?;
        if n == self.held {
            let rest = &self.buffer[..self.held];
            let lines = sheets::answer(&mut self.base, &mut self.check, rest, &mut self.answers);
            return Ok(Turn::Last(lines));
        }
        let part = parts::answer(
            &mut self.base,
            &mut self.check,
            &mut self.buffer,
            n,
            &mut self.answers,
        );
        self.held = part.held;
        Ok(Turn::Part(part.lines))
    }
}

// Writes so many answers.
// By hand: lines beside the buffer. That they lie within it is part of what a turn promises, and asked once, here.
fn write(output: &mut Stdout, answers: &[u8], lines: usize) -> Result<(), Failure>
    requires { 11 * lines ≤ length answers.now }
{
    output
        .write_all(&answers[..11 * lines])
        .map_err(|_| Failure::Write)
}
