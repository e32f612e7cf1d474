// From what the row begins, and what recovery gives from each crash of it.
ghost use Rattle.row_crashes.specs.Left.{EveryLeft};
ghost use Rattle.row_crashes.specs.Row.{EveryBegun, RowOpens};

use lean_disk::Disk;

/// An opening from which the row begins, of as many pages as a fresh disk may have.
pub fn row_opening()
    ensures { RowOpens }
{}

/// On a disk that was opened on such pages a run of no event stands.
pub fn every_begun<D: Disk>(now: &D)
    ensures { EveryBegun (D.story now.now) }
{
    disk_runs::every_opened(now);
}

/// A crash in the flush of log 2, or behind it, keeps nothing, or worker 2's second transaction alone.
pub fn every_left()
    ensures { EveryLeft }
{
    disk_runs::every_held();
}
