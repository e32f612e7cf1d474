// Pieces of a line of output, one after another in a buffer.
ghost use Rattle.std.specs.Prelude.{◌≡◌, ◌≤◌, ◌+◌, ◌++◌, ◌∷◌, ℕ, List, length};
ghost use Rattle.std.specs.Fmt.{decimal};
ghost use Rattle.script_lang.specs.Pieces.{Holds, name};

use itoa::{Buffer, write_digits};

/// Puts a text behind the first `at` bytes. The answer is how many bytes stand then.
#[inline(always)]
pub fn put_text(into: &mut [u8], at: usize, text: &[u8]) -> usize
    requires room { at + length text.now ≤ length into.old }
    ensures end { result ≡ at + length text.now }
    ensures written { (prefix first : List ℕ) → Holds prefix first into.old at → Holds (prefix ++ text.now) first into.new result }
{
    let end = at + text.len();
    into[at..end].copy_from_slice(text);
    end
}

// How many digits a number has.
fn digit_count(number: u64) -> usize
    ensures { result ≡ length (decimal number) }
{
    let mut count = 1;
    let mut left = number;
    while left >= 10_000 {
        left /= 10_000;
        count += 4;
    }
    if left < 10 {
        return count;
    }
    if left < 100 {
        return count + 1;
    }
    if left < 1000 {
        return count + 2;
    }
    count + 3
}

/// Puts a number, in decimal digits.
pub fn put_number(into: &mut [u8], at: usize, number: u64) -> usize
    requires room { at + 20 ≤ length into.old }
    ensures end { result ≤ at + 20 }
    ensures written { (prefix first : List ℕ) → Holds prefix first into.old at → Holds (prefix ++ decimal number) first into.new result }
{
    let end = at + digit_count(number);
    write_digits(number, into, end);
    end
}

/// Puts the session first in the buffer. Most sessions have one digit.
#[inline(always)]
pub fn put_session(into: &mut [u8], session: u32) -> usize
    requires room { 20 ≤ length into.old }
    ensures end { result ≤ 20 }
    ensures written { Holds (decimal session) into.old into.new result }
{
    if session < 10 {
        into[0] = b'0' + session as u8;
        return 1;
    }
    put_number(into, 0, session as u64)
}

/// Puts a text, and a number behind it.
#[inline(always)]
pub fn put_with_number(into: &mut [u8], at: usize, text: &[u8], number: u64) -> usize
    requires room { at + length text.now + 20 ≤ length into.old }
    ensures end { result ≤ at + length text.now + 20 }
    ensures written { (prefix first : List ℕ) → Holds prefix first into.old at → Holds (prefix ++ (text.now ++ decimal number)) first into.new result }
{
    let at = put_text(into, at, text);
    put_number(into, at, number)
}

/// Puts a text, and a number of up to 128 bits behind it.
pub fn put_wide(into: &mut [u8], at: usize, text: &[u8], number: u128) -> usize
    requires room { at + length text.now + 40 ≤ length into.old }
    ensures end { result ≤ at + length text.now + 40 }
    ensures written { (prefix first : List ℕ) → Holds prefix first into.old at → Holds (prefix ++ (text.now ++ decimal number)) first into.new result }
{
    let at = put_text(into, at, text);
    let mut digits = Buffer::new();
    put_text(into, at, digits.format(number).as_bytes())
}

/// Puts a text, and behind it the name of a session's transaction.
pub fn put_with_name(into: &mut [u8], at: usize, text: &[u8], session: u32, number: u64) -> usize
    requires room { at + length text.now + 41 ≤ length into.old }
    ensures end { result ≤ at + length text.now + 41 }
    ensures written { (prefix first : List ℕ) → Holds prefix first into.old at → Holds (prefix ++ (text.now ++ name session number)) first into.new result }
{
    let at = put_with_number(into, at, text, session as u64);
    put_with_number(into, at, b".", number)
}
