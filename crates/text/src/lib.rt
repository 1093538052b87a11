// Hexadecimal text: what is written into a lent buffer, and what is read from a line.
#![tactic(auto)]

ghost use Rattle.std.specs.Prelude.{◌≡◌, ◌+◌, ◌≤◌, length};
ghost use Rattle.std.proofs.lemmas.List.Edits.{sets};
ghost use Rattle.rules.specs.Listing.{entry, hex, hexes, line_of};
ghost use Rattle.rules.specs.ARun.{answer_bytes};
ghost use Rattle.text.specs.Lines.{HasRoom};

use rules::{Answer, Row};

// What is read from a line.
pub mod reading;

// Writes a line of the listing at the front of the buffer: the identifier's length, its characters, the row, line feed.
#[tactic(auto, using(rules::proofs::Digits::length_line, rules::proofs::Digits::length_hexes))]
pub fn put_line(out: &mut [u8], key: &[u8], row: Row)
    requires { HasRoom out.old 0 (line_of (entry key.now row.0)) }
    ensures { out.new ≡ sets out.old 0 (line_of (entry key.now row.0)) }
{
    let end = 2 + 2 * key.len();
    put_hex(out, 0, 2, key.len());
    put_hexes(out, 2, key);
    put_hex(out, end, 8, row.0 as usize);
    out[end + 8] = b'\n';
}

// Writes an answer at the front of the buffer: its number, its value, line feed.
#[tactic(auto, using(crate::proofs::Hexadecimal::answer_parts))]
pub fn put_answer(out: &mut [u8], answer: Answer)
    requires { 11 ≤ length out.old }
    ensures { out.new ≡ sets out.old 0 (answer_bytes answer) }
{
    put_hex(out, 0, 2, rules::number(answer) as usize);
    put_hex(out, 2, 8, rules::value(answer));
    out[10] = b'\n';
}

// Writes characters from byte `at` on, 2 digits each.
// By hand: a place, and a number of digits, beside the buffer. As a part of it, `&mut out[at..at + k]`, each place would stand twice.
#[tactic(auto, using(rules::proofs::Digits::length_hexes))]
fn put_hexes(out: &mut [u8], at: usize, key: &[u8])
    requires { HasRoom out.old at (hexes key.now) }
    ensures { out.new ≡ sets out.old at (hexes key.now) }
{
    for (i, &ch) in key.iter().enumerate() {
        put_hex(out, at + 2 * i, 2, ch as usize);
    }
}

// Writes the last k hexadecimal digits of n from byte `at` on, the last one first.
// By hand: `write!` with `{n:0k$x}` gives a `Result` to be looked at for each number, and of a greater number more than k digits.
pub fn put_hex(out: &mut [u8], at: usize, k: usize, n: usize)
    requires { at + k ≤ length out.old }
    ensures { out.new ≡ sets out.old at (hex k n) }
{
    let digits = b"0123456789abcdef";
    let mut rest = n;
    for i in (0..k).rev() {
        out[at + i] = digits[rest % 16];
        rest /= 16;
    }
}
