//! The number of a cut.
ghost use Rattle.std.specs.Prelude.{◌<◌, ◌≤◌, IfSome};
ghost use Rattle.checkpointer.specs.Inside.{IsLeastCover};
ghost use Rattle.checkpointer.specs.Numbers.{EveryMayCut, EveryNumber, IsNumber};

use lean_disk::Disk;

// The greatest number up to the covers and the floor.
fn least_cover(covers: &[u64; 8], floor: u64) -> u64
    ensures { IsLeastCover covers.now floor 8 result }
{
    let mut found = floor;
    for shard in 0..8usize {
        found = found.min(covers[shard]);
    }
    found
}

/// The number of a cut: the least of the covers, of the number up to which all logs are flushed, and of one less than the
/// first record of the open transactions.
pub fn cut_number(covers: &[u64; 8], floor: u64, first: Option<u64>) -> u64
    requires first { IfSome first (λ n. 0 < n) }
    ensures { IsNumber covers.now floor first result }
{
    let found = least_cover(covers, floor);
    match first {
        Some(number) => {
            if number <= found {
                return number - 1;
            }
            found
        }
        None => found,
    }
}

/// Behind a sync it is the number of a cut.
pub fn every_number()
    ensures { EveryNumber }
{
    core_covers::every_cut_number();
}

/// A cut may be made at such a number.
pub fn every_may_cut<D: Disk>(now: &D)
    ensures { EveryMayCut (D.story now.now) }
{
    core_covers::every_cut_met();
}
