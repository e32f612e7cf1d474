// A reader over bytes: each call takes a number off their prefix.
ghost use Rattle.std.specs.Prelude.{◌≡◌, ◌↔◌, ◌++◌, ◌∷◌, [], ◌<◌, ◌≤◌, length, IfSome, IfNone, IsNone};
ghost use Rattle.lean_bytes.specs.Numbers.{number_bytes};

use byteorder::{ByteOrder, LittleEndian};
use std::marker::Model;

/// The bytes that are left to read.
#[derive(Drop)]
pub struct Cur<'a> {
    bytes: &'a [u8],
}

impl<'a> Model for Cur<'a> {
    ghost use Rattle.std.specs.Prelude.{List, ℕ};

    ghost Value = { List ℕ };

    ghost view = { λ c. c.bytes.now };
}

impl<'a> Cur<'a> {
    /// A reader over these bytes, none of them read.
    pub fn new(bytes: &'a [u8]) -> Cur<'a>
        ensures { result ≡ bytes.now }
    {
        Cur { bytes }
    }

    /// The next byte; none exactly where no byte is left.
    pub fn u8(&mut self) -> Option<u8>
        ensures answer { IfSome result (λ x. self.old ≡ x ∷ self.new) }
        ensures same { IfNone result (self.new ≡ self.old) }

        ensures cause { IsNone result ↔ (length self.old < 1) }
    {
        if self.bytes.is_empty() {
            return None;
        }
        let x = self.bytes[0];
        self.bytes = &self.bytes[1..];
        Some(x)
    }

    /// The number in the next four bytes; none exactly where fewer are left.
    pub fn u32(&mut self) -> Option<u32>
        ensures answer { IfSome result (λ x. self.old ≡ number_bytes 4 x ++ self.new) }
        ensures same { IfNone result (self.new ≡ self.old) }

        ensures cause { IsNone result ↔ (length self.old < 4) }
    {
        if self.bytes.len() < 4 {
            return None;
        }
        let (x, rest) = split_u32(self.bytes);
        self.bytes = rest;
        Some(x)
    }

    /// The number in the next eight bytes; none exactly where fewer are left.
    pub fn u64(&mut self) -> Option<u64>
        ensures answer { IfSome result (λ x. self.old ≡ number_bytes 8 x ++ self.new) }
        ensures same { IfNone result (self.new ≡ self.old) }

        ensures cause { IsNone result ↔ (length self.old < 8) }
    {
        if self.bytes.len() < 8 {
            return None;
        }
        let (x, rest) = split_u64(self.bytes);
        self.bytes = rest;
        Some(x)
    }

    /// The bytes that are left.
    pub fn rest(&self) -> &'a [u8]
        ensures { result.now ≡ self.now }
    {
        self.bytes
    }
}

/// The number in the first four bytes, and the bytes behind them.
fn split_u32(bytes: &[u8]) -> (u32, &[u8])
    requires { 4 ≤ length bytes.now }
    ensures { bytes.now ≡ number_bytes 4 result.0 ++ result.1.now }
{
    (LittleEndian::read_u32(bytes), &bytes[4..])
}

/// The number in the first eight bytes, and the bytes behind them.
fn split_u64(bytes: &[u8]) -> (u64, &[u8])
    requires { 8 ≤ length bytes.now }
    ensures { bytes.now ≡ number_bytes 8 result.0 ++ result.1.now }
{
    (LittleEndian::read_u64(bytes), &bytes[8..])
}
