// What a stored i32 says on either side of 0, and how one is written. Reads and stores are total: past the end a read
// gives 0 and a store does nothing, so that no caller argues about bounds. Where a loop reads for every cell, `read`, `known`
// and the tests in `_in` read without a test what its caller knows.
#![tactic(auto)]

ghost use Rattle.std.specs.Prelude.{◌≡◌, ◌+◌, ◌≤◌, ◌<◌, ℕ, ℤ, List, leb, eqb, length, set};
ghost use Rattle.numbers.specs.Stored.{positive, negative, plus_of, minus_of, plus_at, minus_at, away_at, greatest_stored, Reads};
ghost use Rattle.numbers.specs.Sides.{SideLaws, plus_laws, minus_laws};

// A side of 0.
pub trait Side {
    // What a stored number says on this side: how far from 0 it lies, or 0 where it lies on the other.
    ghost of: { ℤ → ℕ };

    // The same of the element i, and 0 past the end.
    ghost at: { List ℤ → ℕ → ℕ };

    // A number, as it is stored on this side.
    ghost on: { ℕ → ℤ };

    ghost laws: { SideLaws of at on };

    // What x says on this side.
    fn read(x: i32) -> usize
        ensures { Reads (of x) result };

    // The same where x is known to lie on this side: its sign is not tested.
    fn read_known(x: i32) -> usize
        requires { 1 ≤ of x }
        ensures { Reads (of x) result };

    // The number n on this side.
    fn write(n: usize) -> i32
        requires { n ≤ greatest_stored }
        ensures { result ≡ on n };
}

// Above 0: n is stored as n.
pub struct Plus;

// Below 0: n is stored as minus n.
pub struct Minus;

impl Side for Plus {
    ghost of = { plus_of };

    ghost at = { plus_at };

    ghost on = { positive };

    ghost laws = { plus_laws };

    fn read(x: i32) -> usize {
        if 0 <= x { x as usize } else { 0 }
    }

    fn read_known(x: i32) -> usize {
        x as usize
    }

    fn write(n: usize) -> i32 {
        n as i32
    }
}

impl Side for Minus {
    ghost of = { minus_of };

    ghost at = { minus_at };

    ghost on = { negative };

    ghost laws = { minus_laws };

    fn read(x: i32) -> usize {
        if x < 0 { Minus::read_known(x) } else { 0 }
    }

    // The detour by 64 bits is for the least i32, whose negative no i32 holds.
    fn read_known(x: i32) -> usize {
        (-(x as i64)) as usize
    }

    fn write(n: usize) -> i32 {
        -(n as i32)
    }
}

// What the element i says on a side, or 0 past the end.
pub fn at<S: Side>(s: &[i32], i: usize) -> usize
    ensures { Reads (S.at s.now i) result }
{
    if i < s.len() { S::read(s[i]) } else { 0 }
}

// The element i, known to lie on a side and so within: neither its sign nor a bound is tested.
pub fn known<S: Side>(s: &[i32], i: usize) -> usize
    requires { 1 ≤ S.at s.now i }
    ensures { Reads (S.at s.now i) result }
{
    S::read_known(s[i])
}

// Stores n on a side as the element i; past the end nothing is stored.
pub fn put<S: Side>(s: &mut [i32], i: usize, n: usize)
    requires { n ≤ greatest_stored }
    ensures { s.new ≡ set s.old i (S.on n) }
{
    if i < s.len() {
        s[i] = S::write(n);
    }
}

// Whether the element i, known to lie within, is above 0.
pub fn is_plus_in(s: &[i32], i: usize) -> bool
    requires { i < length s.now }
    ensures { result ≡ leb 1 (plus_at s.now i) }
{
    0 < s[i]
}

// Whether the elements i of two arrays, known to lie within, are both 0: one test for the two.
pub fn are_nought_in(s: &[i32], t: &[i32], i: usize) -> bool
    requires { (i < length s.now) × (i < length t.now) }
    ensures { result ≡ eqb (away_at s.now i + away_at t.now i) 0 }
{
    s[i] | t[i] == 0
}

// Whether the element i is n; past the end nothing is. Not for 0, which `at::<Plus>` gives for a negative element too.
pub fn is_at(s: &[i32], i: usize, n: usize) -> bool
    requires { (1 ≤ n) × (n ≤ greatest_stored) }
    ensures { result ≡ eqb (plus_at s.now i) n }
{
    i < s.len() && s[i] == Plus::write(n)
}
