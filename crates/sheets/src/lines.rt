// A sheet's lines. A line ends at a line feed or at the sheet's end; no line follows a final line feed.
ghost use Rattle.std.specs.Prelude.{◌≡◌, ◌≤◌, length};
ghost use Rattle.rules.specs.ARun.{sheet_lines};
ghost use Rattle.tree.specs.Sheets.{FirstLine};
ghost use Rattle.sheets.specs.Counting.{feeds_in, is_unfinished};

// So many bytes are counted at a time.
const BLOCK: usize = 240;

// The number of lines.
pub fn count(sheet: &[u8]) -> usize
    ensures { result ≡ length (sheet_lines sheet.now) }
{
    let mut n = 0;
    for block in sheet.chunks(BLOCK) {
        n += feeds(block) as usize;
    }
    n + usize::from(is_unfinished(sheet))
}

// The line feeds among at most 255 bytes. They are counted in a byte, so that the machine looks at many bytes at a time.
#[tactic(auto, using(crate::proofs::Counted::feed_here, crate::proofs::Counted::none_here, crate::proofs::Counted::none_behind))]
fn feeds(part: &[u8]) -> u8
    requires { length part.now ≤ 255 }
    ensures { result ≡ feeds_in part.now }
{
    let mut n: u8 = 0;
    for &b in part {
        if b == b'\n' {
            n += 1;
        }
    }
    n
}

// Whether the last line has no line feed.
#[tactic(auto, unfolding(crate::specs::Counting::is_unfinished))]
fn is_unfinished(sheet: &[u8]) -> bool
    ensures { result ≡ is_unfinished sheet.now }
{
    sheet.last().is_some_and(|&b| b != b'\n')
}

// Where the first line ends: at the first line feed, or at the end.
pub fn end(rest: &[u8]) -> usize
    ensures { FirstLine rest.now result }
{
    rest.iter().position(|&b| b == b'\n').unwrap_or(rest.len())
}
