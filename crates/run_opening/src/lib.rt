//! A run of the core begins on a disk that recovery has opened.
#![tactic(auto)]

ghost use Rattle.run_opening.specs.Starts.{EveryStart};

use lean_disk::Disk;

/// What recovery leaves, by its clauses, is where a run begins. The parameters are the disk as it is before recovery and after it.
pub fn every_start<D: Disk>(first: &D, now: &D)
    ensures { EveryStart (D.story first.now) (D.story now.now) }
{
    disk_runs::every_opened(now);
}
