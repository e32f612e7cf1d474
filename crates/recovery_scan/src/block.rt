// The records of one block.
ghost use Rattle.std.specs.Prelude.{◌≡◌, ◌≤◌, ◌<◌, ◌+◌, ◌^◌, suc, ℕ, List, true, false, Err, OnOk, length};
ghost use Rattle.disk_image.specs.log_block.Block.{Belongs};
ghost use Rattle.log_index.specs.Items.{held};
ghost use Rattle.recovery_scan.specs.Inside.{BlockAdded, IsBadBlock, IsAbove, IsLate, NoneIsLate};

use disk_image::{LogBlockRefusal as Refusal, open_block};
use log_index::{LogIndex, PushError};

/// Why the records of a block are not taken.
#[derive(Clone, Copy, Debug, PartialEq, Eq)]
pub(crate) enum Stop {
    /// It does not belong to the run.
    RunEnds,
    Damaged,
    Memory,
}

// Whether the number of a record is above that of the one before it.
fn is_above(index: &LogIndex, i: usize) -> bool
    requires some { 0 < i }
    requires within { i < length index.now }
    ensures yes { result ≡ true → IsAbove i index.now }
    ensures no { result ≡ false → (start from : ℕ) → start < i → from ≤ i → IsLate start from index.now }
{
    index.head(i - 1).number < index.head(i).number
}

// Whether the numbers of the records from `from` on rise from those before them in their log, whose first record is `start`.
fn rises(index: &LogIndex, start: usize, from: usize) -> bool
    ensures yes { result ≡ true → NoneIsLate start from (length index.now) index.now }
    ensures no { result ≡ false → IsLate start from index.now }
{
    let mut i = from;
    while i < index.len() {
        if start < i && !is_above(index, i) {
            return false;
        }
        i += 1;
    }
    true
}

/// Adds the records of the block to those of its log, which begin at `start`.
pub(crate) fn take_block(
    index: &mut LogIndex,
    start: usize,
    generation: u64,
    log: u32,
    number: u64,
    place: u32,
    bytes: &[u8],
) -> Result<(), Stop>
    requires log { log < 256 }
    requires place { place < 2 ^ 16 }
    requires room { held index.old + 2000 < 2 ^ 32 }
    ensures added { OnOk result (BlockAdded start generation log number place bytes.now index.old index.new) }
    ensures size { OnOk result (held index.new ≤ held index.old + 2000) }
    ensures same { result ≡ Err Stop.RunEnds → index.new ≡ index.old }

    ensures cause_run_ends { result ≡ Err Stop.RunEnds → Belongs generation log number bytes.now → ⊥ }
    ensures cause_damaged { result ≡ Err Stop.Damaged → IsBadBlock start generation log number place bytes.now index.old }
{
    let (count, payload) = match open_block(generation, log, number, bytes) {
        Ok(opened) => opened,
        Err(Refusal::NoRun) => return Err(Stop::RunEnds),
        Err(Refusal::Malformed) => return Err(Stop::Damaged),
    };
    let from = index.len();
    match index.push_block(log as u8, place as u16, count, payload) {
        Ok(()) => {}
        Err(PushError::Malformed) => return Err(Stop::Damaged),
        Err(PushError::Memory) => return Err(Stop::Memory),
    }
    if rises(index, start, from) {
        return Ok(());
    }
    Err(Stop::Damaged)
}
