// The control words of the workers.
ghost use Rattle.std.specs.Prelude.{◌+◌, ◌*◌, ◌<◌, ◌≤◌, ◌^◌, length};
ghost use Rattle.row_opening.specs.Inside.{worker_row, AreTiled};

/// The epoch of a worker that is outside.
const OUTSIDE: u64 = 1 << 63;

/// Each worker has ended, and flushed, all numbers up to `base`, is outside, and has no answer. The workers' words lie behind the two
/// common ones.
pub(crate) fn set_workers(words: &mut [u64], workers: u32, base: u64)
    requires size { 2 + 4 * workers ≤ length words.old }
    requires few { workers < 2 ^ 32 }
    ensures { AreTiled (λ _. worker_row base) 2 4 workers words.old words.new }
{
    for worker in 0..workers as usize {
        let at = 2 + 4 * worker;
        words[at..at + 4].copy_from_slice(&[base, base, OUTSIDE, 0]);
    }
}
