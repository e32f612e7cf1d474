// Numbers behind one another in a buffer, and off the beginning of bytes.
ghost use Rattle.std.specs.Prelude.{◌≡◌, ◌≤◌, ◌<◌, ◌+◌, ◌^◌, ◌++◌, ◌∷◌, [], ℕ, List, length};
ghost use Rattle.lean_bytes.specs.Numbers.{number_bytes};
ghost use Rattle.log_record.specs.Spelling.{Holds};

use byteorder::{ByteOrder, LittleEndian};
use lean_bytes::put_u64;

/// Puts a byte behind the first `at` bytes. The answer is how many bytes stand then.
pub fn put_byte(into: &mut [u8], at: usize, byte: u8) -> usize
    requires room { at + 1 ≤ length into.old }
    ensures end { result ≡ at + 1 }
    ensures written { (prefix first : List ℕ) → Holds prefix first into.old at → Holds (prefix ++ byte ∷ []) first into.new result }
{
    into[at] = byte;
    at + 1
}

/// Puts a number of four bytes.
pub fn put_short(into: &mut [u8], at: usize, number: u32) -> usize
    requires room { at + 4 ≤ length into.old }
    ensures end { result ≡ at + 4 }
    ensures written { (prefix first : List ℕ) → Holds prefix first into.old at → Holds (prefix ++ number_bytes 4 number) first into.new result }
{
    LittleEndian::write_u32(&mut into[at..at + 4], number);
    at + 4
}

/// Puts a number of eight bytes.
pub fn put_word(into: &mut [u8], at: usize, number: u64) -> usize
    requires room { at + 8 ≤ length into.old }
    ensures end { result ≡ at + 8 }
    ensures written { (prefix first : List ℕ) → Holds prefix first into.old at → Holds (prefix ++ number_bytes 8 number) first into.new result }
{
    put_u64(into, at, number);
    at + 8
}

/// The number in the first four bytes, and the bytes behind them.
pub fn split_short(bytes: &[u8]) -> (u32, &[u8])
    requires { 4 ≤ length bytes.now }
    ensures prefix { bytes.now ≡ number_bytes 4 result.0 ++ result.1.now }
    ensures rest { length result.1.now + 4 ≡ length bytes.now }
    ensures fits { result.0 < 2 ^ 32 }
{
    (LittleEndian::read_u32(bytes), &bytes[4..])
}

/// The number in the first eight bytes, and the bytes behind them.
pub fn split_word(bytes: &[u8]) -> (u64, &[u8])
    requires { 8 ≤ length bytes.now }
    ensures prefix { bytes.now ≡ number_bytes 8 result.0 ++ result.1.now }
    ensures rest { length result.1.now + 8 ≡ length bytes.now }
    ensures fits { result.0 < 2 ^ 64 }
{
    (LittleEndian::read_u64(bytes), &bytes[8..])
}

/// The first byte, and the bytes behind it.
pub(crate) fn split_byte(bytes: &[u8]) -> (u8, &[u8])
    requires { 1 ≤ length bytes.now }
    ensures prefix { bytes.now ≡ result.0 ∷ result.1.now }
    ensures rest { length result.1.now + 1 ≡ length bytes.now }
    ensures fits { result.0 < 2 ^ 8 }
{
    (bytes[0], &bytes[1..])
}
