// Numbers and characters in hexadecimal digits, read from a line. A byte that is no digit is met safely.
ghost use Rattle.std.specs.Prelude.{◌≡◌, ◌*◌, ◌≤◌, length};
ghost use Rattle.text.specs.Reading.{NumberRead, CharactersRead};

// The number that at most 8 digits say, or none where a byte is no digit. The tests stand here, and not in a function of what a digit
// stands for: so the compiler leaves at the first byte that is none, with no second test.
// By hand: a match on ranges of b made two tests of each digit, 110 instructions more for a line of a run.
// By hand: `from_str_radix` takes a `&str`, and a sign and capital letters too.
#[tactic(auto, using(crate::proofs::DigitsRead::not_read, crate::proofs::DigitsRead::all_read))]
pub fn number(digits: &[u8]) -> Option<usize>
    requires { length digits.now ≤ 8 }
    ensures { NumberRead digits.now result }
{
    let mut n = 0;
    for &b in digits {
        if b'0' <= b && b <= b'9' {
            n = n * 16 + (b as usize - 48);
        } else if b'a' <= b && b <= b'f' {
            n = n * 16 + (b as usize - 87);
        } else {
            return None;
        }
    }
    Some(n)
}

// Reads characters, 2 digits each, into the key; none where a byte is no digit.
pub fn characters(digits: &[u8], key: &mut [u8]) -> Option<()>
    requires { length digits.now ≡ 2 * length key.old }
    ensures { CharactersRead digits.now key.new result }
{
    for (i, pair) in digits.chunks_exact(2).enumerate() {
        key[i] = number(pair)? as u8;
    }
    Some(())
}
