// What a line says. A line that is a command tells its own length, and so does one that is none by its fields alone: only what is neither is
// searched for its end.
ghost use Rattle.std.specs.Prelude.{◌≡◌, length};
ghost use Rattle.rules.specs.ARun.{command_of};
ghost use Rattle.tree.specs.WrittenLines.{EightDigits};
ghost use Rattle.sheets.specs.Reading.{FramedRead, LineRead, asked_or_none, is_end};

use rules::Row;

// What a line asks for, with the characters of its key.
#[derive(Clone, Copy)]
pub enum Command<'a> {
    Insert(&'a [u8], Row),
    Delete(&'a [u8]),
    Find(&'a [u8]),
    Compact(usize),
}

// Reads the first line of what is left of a sheet: its command, if it is one, and where it ends. Its characters go into the key.
pub fn read<'a>(rest: &[u8], key: &'a mut [u8]) -> (Option<Command<'a>>, usize)
    requires { length key.old ≡ 255 }
    ensures { LineRead rest.now result.0 result.1 }
{
    match read_framed(rest, key) {
        Some(said) => said,
        None => (None, crate::lines::end(rest)),
    }
}

// What the first line says, and where it ends, if it is all digits and has the length that it says: its command, or none where its fields
// are no command's. Any other first line is no command.
fn read_framed<'a>(rest: &[u8], key: &'a mut [u8]) -> Option<(Option<Command<'a>>, usize)>
    requires { length key.old ≡ 255 }
    ensures { FramedRead rest.now result }
{
    if rest.len() < 12 {
        return None;
    }
    let operation = text::reading::number(&rest[..2])?;
    let length = text::reading::number(&rest[2..4])?;
    let end = 12 + 2 * length;
    if !is_end(rest, end) {
        return None;
    }
    let key = &mut key[..length];
    text::reading::characters(&rest[4..end - 8], key)?;
    let number = text::reading::number(&rest[end - 8..end])?;
    Some((command_of(operation, key, number), end))
}

// The command that three fields say, or none.
#[tactic(auto, unfolding(rules::specs::ARun::command_of))]
fn command_of<'a>(operation: usize, key: &'a [u8], number: usize) -> Option<Command<'a>>
    requires { EightDigits number }
    ensures { asked_or_none result ≡ command_of operation (length key.now) key.now number }
{
    match (operation, key.len(), number) {
        (1, _, _) => Some(Command::Insert(key, Row(number as u32))),
        (2, _, 0) => Some(Command::Delete(key)),
        (3, _, 0) => Some(Command::Find(key)),
        (4, 0, _) => Some(Command::Compact(number)),
        _ => None,
    }
}

// Whether a line can end there: at the end of what is left, or at a line feed.
fn is_end(rest: &[u8], end: usize) -> bool
    ensures { result ≡ is_end rest.now end }
{
    match rest.get(end) {
        Some(&b) => b == b'\n',
        None => rest.len() == end,
    }
}
