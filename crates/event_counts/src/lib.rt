//! How many events of a run draw a number, and how many a scan has of these, and of syncs: laws, with no code.
//!
//! Read specs/Draws, then specs/Scans.
#![tactic(auto)]

ghost use Rattle.event_counts.specs.Draws.{EveryDraw};
ghost use Rattle.event_counts.specs.Scans.{EveryScanCount};

/// No number goes further above the base number than events drew one.
pub fn every_draw()
    ensures { EveryDraw }
{}

/// A step of a scan draws no number and makes one sync at most; the abort behind one that met a conflict draws one for each
/// change that it puts back, and one for its end.
pub fn every_scan_count()
    ensures { EveryScanCount }
{
    sync_counts::every_sync_count();
}
