// The areas of a disk in memory, as a list.
ghost use Rattle.std.specs.Prelude.{◌≡◌};
ghost use Rattle.lean_disk.specs.Memory.{all_here, all_own};
ghost use Rattle.lean_disk.specs.Inside.Over.{IsNewest};

use crate::Slot;

/// Nothing is split off.
pub fn is_whole(areas: &[Slot]) -> bool
    ensures { result ≡ all_here areas.now }
{
    for slot in areas {
        if !slot.is_here() {
            return false;
        }
    }
    true
}

/// Crashes are told of: nothing is split off, and each part that came back is the disk's own, as far as its calls show.
pub fn is_told(own: bool, areas: &[Slot]) -> bool
    ensures { result ≡ all_own own areas.now }
{
    own && is_whole(areas)
}

/// The greatest of a number and of the numbers of all calls.
pub fn newest(areas: &[Slot], made: u64) -> u64
    ensures { IsNewest made areas.now result }
{
    let mut newest = made;
    for slot in areas {
        newest = newest.max(slot.newest());
    }
    newest
}
