// The run of blocks with which a log begins.
ghost use Rattle.std.specs.Prelude.{◌≡◌, ◌≤◌, ◌<◌, ◌+◌, ◌^◌, ℕ, IsTrue, ◌↔◌};
ghost use Rattle.log_block.specs.Run.{StandsAt};

use crate::block::belongs;
use crate::format::BLOCK;

/// How many blocks the longest run has: blocks `head`, `head + 1` and so on of a ring of so many blocks, each sealed and
/// of this generation, log and number, at its place in the log's area. A place past the area's end has no block.
pub fn valid_run(generation: u64, log: u32, head: u64, blocks: u32, area: &[u8]) -> u32
    requires head { head < 2 ^ 63 }
    ensures bound { result ≤ blocks }
    ensures all { (k : ℕ) → k < result → StandsAt generation log (head + k) blocks area.now }
    ensures longest { result < blocks → StandsAt generation log (head + result) blocks area.now → ⊥ }
{
    for count in 0..blocks {
        if !stands_at(generation, log, head + count as u64, blocks, area) {
            return count;
        }
    }
    blocks
}

fn stands_at(generation: u64, log: u32, block: u64, blocks: u32, area: &[u8]) -> bool
    requires { 0 < blocks }
    ensures { IsTrue result ↔ StandsAt generation log block blocks area.now }
{
    let at = BLOCK * (block % blocks as u64) as usize;
    if at + BLOCK > area.len() {
        return false;
    }
    belongs(generation, log, block, &area[at..at + BLOCK])
}
