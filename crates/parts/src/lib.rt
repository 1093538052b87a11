// A sheet that comes in parts, on a table known to be sound. Of each part the finished lines are answered; the last one, if it is not
// finished, is carried over to the front of the next part. However the sheet is cut into parts, its answers are the same.
// By hand: base and check are two parameters, as in `cells`, and so each contract asks for a sound table.
#![tactic(auto)]

ghost use Rattle.parts.specs.Parts.{Cut, Carries, Carried, AnswersPart, PartAnswered};

// A line of so many bytes is longer than any well-formed one. No more of it is carried over, however long it is.
pub const TOO_LONG: usize = 523;

// How many lines of a part were answered, and how many bytes were carried over.
#[derive(Drop)]
pub struct Part {
    pub lines: usize,
    pub held: usize,
}

// Answers the finished lines among the first n bytes of the buffer, and carries the rest over to its front.
// By hand: n beside the buffer, since its promise speaks of the whole buffer, whose other bytes stay.
pub fn answer(
    base: &mut [i32],
    check: &mut [i32],
    buffer: &mut [u8],
    n: usize,
    answers: &mut [u8],
) -> Part
    requires { AnswersPart base.old check.old buffer.old n answers.old }
    ensures { PartAnswered base.old check.old buffer.old n result.lines result.held base.new check.new buffer.new answers.new }
{
    let end = cut(&buffer[..n]);
    let lines = sheets::answer(base, check, &buffer[..end], answers);
    let held = carry(buffer, end, n);
    Part { lines, held }
}

// Where a part may be cut: behind its last line feed, or at its beginning where it has none.
fn cut(part: &[u8]) -> usize
    ensures { Cut part.now result }
{
    part.iter().rposition(|&b| b == b'\n').map_or(0, |i| i + 1)
}

// Carries the bytes from one place up to another over to the front, or as many of them as make a line too long. Gives their number.
fn carry(buffer: &mut [u8], from: usize, to: usize) -> usize
    requires { Carries buffer.old from to }
    ensures { Carried buffer.old from to result buffer.new }
{
    let n = (to - from).min(TOO_LONG);
    buffer.copy_within(from..from + n, 0);
    n
}
