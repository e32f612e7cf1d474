// Numbers of eight bytes at a place, and words one after the other. The lowest byte stands first.
ghost use Rattle.std.specs.Prelude.{◌≡◌, ◌++◌, ℕ, ◌+◌, ◌*◌, ◌^◌, ◌<◌, ◌≤◌, length, slice_index, take, drop};
ghost use Rattle.lean_bytes.specs.Numbers.{number_bytes, number_at, words_bytes, AreWords};

use byteorder::{ByteOrder, LittleEndian};

/// Writes a number into the eight bytes from `at` on.
pub fn put_u64(into: &mut [u8], at: usize, v: u64)
    requires { at + 8 ≤ length into.old }
    ensures { into.new ≡ take at into.old ++ (number_bytes 8 v ++ drop (at + 8) into.old) }
{
    LittleEndian::write_u64(&mut into[at..at + 8], v);
}

/// The number in the eight bytes from `at` on.
pub fn take_u64(bytes: &[u8], at: usize) -> u64
    requires { at + 8 ≤ length bytes.now }
    ensures { result ≡ number_at 8 at bytes.now }
{
    LittleEndian::read_u64(&bytes[at..])
}

/// Writes words one after the other, from the first byte on.
pub fn put_words(into: &mut [u8], words: &[u64])
    requires { length into.old ≡ 8 * length words.now }
    ensures { into.new ≡ words_bytes words.now }
{
    LittleEndian::write_u64_into(words, into);
}

/// Reads words that stand one after the other.
pub fn take_words(bytes: &[u8], words: &mut [u64])
    requires { length bytes.now ≡ 8 * length words.old }
    ensures after { words_bytes words.new ≡ bytes.now }
    ensures fits { AreWords words.new }
{
    LittleEndian::read_u64_into(bytes, words);
}
