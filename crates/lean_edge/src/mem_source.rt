// A source in memory.
ghost use Rattle.std.specs.Prelude.{◌≡◌, ◌<◌, ◌≤◌, ◌+◌, ◌++◌, ℕ, true, length, take, drop, min, IfOk};
ghost use Rattle.lean_edge.specs.Outside.{Feed, Took};
ghost use Rattle.lean_edge.specs.Memory.{Gives, no_calls};
ghost use Rattle.lean_disk.specs.Faults.{HasCause};

use crate::calls::Calls;
use crate::{Next, Source};
use std::alloc::{AllocError, Global};
use std::marker::Model;

/// A source in memory. It gives its bytes in pieces, and fails at the calls that it was told to.
#[derive(Debug, Drop)]
pub struct MemSource {
    bytes: Vec<u8>,
    given: usize,
    piece: usize,
    calls: Calls,
}

impl Model for MemSource {
    ghost use Rattle.std.specs.Prelude.{◌≤◌, ◌<◌, drop, vec_len};
    ghost use Rattle.lean_edge.specs.Memory.{Stock};

    ghost Value = { Stock };

    ghost view = { λ s. record { left = drop s.given s.bytes.items; piece = s.piece; calls = s.calls } };

    ghost invariant = { λ s. (s.given ≤ vec_len s.bytes) × (0 < s.piece) };
}

impl MemSource {
    /// A source of these bytes, of which a call gives at most `piece`.
    pub fn new(alloc: Global, bytes: &[u8], piece: usize) -> Result<MemSource, AllocError>
        requires { 0 < piece }
        ensures { IfOk result (λ source. source ≡ record { left = bytes.now; piece = piece; calls = no_calls }) }
    {
        Ok(MemSource {
            bytes: Vec::from_slice(alloc, bytes)?,
            given: 0,
            piece,
            calls: Calls::new(alloc),
        })
    }

    /// The calls with these numbers, from 1, fail.
    pub fn fail_at(&mut self, list: Vec<u64>)
        ensures { self.new ≡ record self.old { calls = record self.old.calls { failing = list.items } } }
    {
        self.calls.fail_at(list);
    }
}

impl Source for MemSource {
    ghost feed = { λ s. record { tells = true; left = s.left } };

    ghost faults = { λ s. s.calls.faults };

    fn next(&mut self, into: &mut [u8]) -> Next
        ensures took { Took (length into.old) into.new result
            (record { tells = true; left = self.old.left }) (record { tells = true; left = self.new.left }) }
        ensures cause { HasCause self.old.calls.faults self.new.calls.faults (result ≡ Next.Failed) }
        ensures gives { Gives (length into.old) result self.old self.new }
    {
        if self.calls.is_to_fail() {
            self.calls.fail();
            return Next::Failed;
        }
        self.calls.pass();
        if self.given >= self.bytes.len() {
            return Next::End;
        }
        let count = give(&self.bytes, self.given, self.piece, into);
        self.given += count;
        Next::Got(count)
    }
}

// Gives the next bytes, as many as a piece may have and there is room for.
fn give(bytes: &[u8], given: usize, piece: usize, into: &mut [u8]) -> usize
    requires some { 0 < piece }
    requires left { given < length bytes.now }
    ensures count { result ≡ min (min piece (length into.old)) (length (drop given bytes.now)) }
    ensures fits { given + result ≤ length bytes.now }
    ensures given { drop given bytes.now ≡ take result into.new ++ drop (given + result) bytes.now }
{
    let count = piece.min(into.len()).min(bytes.len() - given);
    copy_prefix(into, &bytes[given..given + count]);
    count
}

// Writes the bytes at the prefix.
fn copy_prefix(into: &mut [u8], bytes: &[u8])
    requires { length bytes.now ≤ length into.old }
    ensures { take (length bytes.now) into.new ≡ bytes.now }
{
    let (prefix, _) = into.split_at_mut(bytes.len());
    prefix.copy_from_slice(bytes);
}
