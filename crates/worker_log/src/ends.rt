// The last numbers of the blocks of a log, the oldest first.
ghost use Rattle.std.specs.Prelude.{◌≡◌, ◌<◌, ◌≤◌, [], ◌∷◌, ◌++◌, length, drop, slice_get, IfOk};
ghost use Rattle.circular_buffer.specs.Buffer.{buffer};
ghost use Rattle.worker_log.specs.Inside.{is_up_to};
ghost use Rattle.worker_log.specs.Logs.{passed_by};

use circular_buffer::HeapCircularBuffer;
use std::alloc::{AllocError, Global};

// A list for as many blocks.
pub(crate) fn new_ends(alloc: Global, blocks: u32) -> Result<HeapCircularBuffer<u64>, AllocError>
    ensures { IfOk result (λ ends. (ends.items ≡ []) × (ends.capacity ≡ blocks)) }
{
    HeapCircularBuffer::with_capacity(alloc, blocks as usize)
}

// A block was written, whose last record has this number.
pub(crate) fn push_end(ends: &mut HeapCircularBuffer<u64>, number: u64)
    requires { length ends.old.items < ends.old.capacity }
    ensures { ends.new ≡ buffer (ends.old.items ++ number ∷ []) ends.old.capacity }
{
    let _ = ends.try_push_back(number);
}

// The head has passed so many blocks.
pub(crate) fn drop_ends(ends: &mut HeapCircularBuffer<u64>, count: u64)
    ensures { ends.new ≡ buffer (drop count ends.old.items) ends.old.capacity }
{
    for _passed in 0..count {
        let _ = ends.pop_front();
    }
}

// There is an end at this place, and it is not above the number.
fn is_below(ends: &HeapCircularBuffer<u64>, at: usize, number: u64) -> bool
    ensures { result ≡ is_up_to number (slice_get ends.now.items at) }
{
    match ends.get(at) {
        Some(end) => *end <= number,
        None => false,
    }
}

// How many of the first blocks have no record above this number.
pub(crate) fn passed(ends: &HeapCircularBuffer<u64>, number: u64) -> u64
    ensures count { result ≡ passed_by number ends.now.items }
    ensures within { result ≤ length ends.now.items }
{
    for at in 0..ends.len() {
        if !is_below(ends, at, number) {
            return at as u64;
        }
    }
    ends.len() as u64
}
