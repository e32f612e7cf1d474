//! One increment: the dirty pages of a shard of frames are saved, and the pages are synced.
ghost use Rattle.std.specs.Prelude.{◌≡◌, ◌<◌, ◌≤◌, ◌+◌, ◌↔◌, ℕ, Err, IsErr, IsErrAnd, IfErr, OnOk};
ghost use Rattle.disk_runs.specs.core_state.Openings.{Opening};
ghost use Rattle.disk_runs.specs.core_state.States.{flushed_by_all};
ghost use Rattle.disk_runs.specs.core_state.Steps.{state_after};
ghost use Rattle.lean_disk.specs.Faults.{HasCause};
ghost use Rattle.lean_disk.specs.Moments.{Framed};
ghost use Rattle.checkpointer.specs.Inside.{Above, AreLow, Going};
ghost use Rattle.checkpointer.specs.Increments.{IncrementFails, IncrementStops, Increments, IsAgain, IsSomeAbove, TellsAgain, Within};
ghost use Rattle.checkpointer.specs.Savers.{Looked};
ghost use Rattle.checkpointer.specs.declared.increment.Unsaved.TheVariants as unsaved;
ghost use Rattle.checkpointer.specs.declared.saver.NotSaved.TheVariants as not_saved;

use crate::saver::{Dirty, NotSaved, Saver};
use disk_runs::DiskFault;
use lean_disk::Part;

/// How many shards there are; a frame is of the shard of its number modulo this.
pub const SHARDS: u32 = 8;

/// Why a shard was not saved.
#[derive(Clone, Copy, Debug, PartialEq, Eq)]
pub enum Unsaved {
    /// Page `page` of the shard has the number `gsn`, above what was flushed everywhere. Nothing was done.
    Again { page: u32, gsn: u64, floor: u64 },
    /// The version of a row has come to its last number. Some pages were saved.
    RowSpent,
    DiskFault,
}

// The dirty page of a frame, if it is of the shard and above the floor.
fn above_in<P: Part, S: Saver<P>>(
    saver: &mut S,
    frame: u32,
    shard: u32,
    floor: u64,
) -> Option<Dirty>
    requires ready { S.ready saver.old }
    requires frame { frame < S.frames_of saver.old }
    ensures ready { S.ready saver.new }
    ensures frames { S.frames_of saver.new ≡ S.frames_of saver.old }
    ensures answer { (o : Opening) → S.opens saver.old o → Above (state_after o (S.front saver.old)) shard floor (λ f. f ≡ frame) result }
    ensures looked { Looked (S.opens saver.old) (S.opens saver.new) (S.front saver.old) (S.front saver.new) (S.knows saver.old) (S.knows saver.new) }
    ensures since { (base : S) (n : ℕ) → S.since base n saver.old → S.since base n saver.new }
{
    disk_runs::every_residence();
    if frame % SHARDS != shard {
        return None;
    }
    match saver.dirty(frame) {
        Some(found) => {
            if floor < found.gsn {
                return Some(found);
            }
            None
        }
        None => None,
    }
}

// A dirty page of the shard above the floor, if there is one.
fn above<P: Part, S: Saver<P>>(saver: &mut S, shard: u32, floor: u64) -> Option<Dirty>
    requires ready { S.ready saver.old }
    ensures ready { S.ready saver.new }
    ensures frames { S.frames_of saver.new ≡ S.frames_of saver.old }
    ensures answer { (o : Opening) → S.opens saver.old o → Above (state_after o (S.front saver.old)) shard floor (λ _. Unit {0}) result }
    ensures looked { Looked (S.opens saver.old) (S.opens saver.new) (S.front saver.old) (S.front saver.new) (S.knows saver.old) (S.knows saver.new) }
    ensures since { (base : S) (n : ℕ) → S.since base n saver.old → S.since base n saver.new }
{
    disk_runs::every_residence();
    for frame in 0..saver.frames() {
        if let Some(found) = above_in(saver, frame, shard, floor) {
            return Some(found);
        }
    }
    None
}

// Saves the page of a frame, if it is of the shard and dirty.
fn save_in<P: Part, S: Saver<P>>(
    saver: &mut S,
    dev: &mut P,
    frame: u32,
    shard: u32,
    floor: u64,
) -> Result<(), NotSaved>
    requires ready { S.ready saver.old }
    requires area { (P.seat dev.old).area ≡ 1 }
    requires frame { frame < S.frames_of saver.old }
    requires low { (o : Opening) → S.opens saver.old o → AreLow (state_after o (S.front saver.old)) shard floor (λ f. f ≡ frame) }
    requires floor { (o : Opening) → S.opens saver.old o → floor ≤ flushed_by_all o (state_after o (S.front saver.old)) }
    ensures ready { (result ≡ Err not_saved.DiskFault → ⊥) → S.ready saver.new }
    ensures frames { S.frames_of saver.new ≡ S.frames_of saver.old }
    ensures opens { (o : Opening) → S.opens saver.old o ↔ S.opens saver.new o }
    ensures going { OnOk result ((o : Opening) → S.opens saver.old o → Going o (S.front saver.old) (S.front saver.new) shard (λ f. f ≡ frame) (S.knows saver.old) (S.knows saver.new) (P.story dev.old) (P.story dev.new)) }
    ensures stopped { result ≡ Err not_saved.RowSpent → (o : Opening) → S.opens saver.old o → IncrementStops o (S.front saver.old) (S.front saver.new) (S.knows saver.old) (S.knows saver.new) (P.story dev.old) (P.story dev.new) }
    ensures failed { IsErr result → (o : Opening) → S.opens saver.old o → IncrementFails o (S.front saver.old) (S.knows saver.old) (P.story dev.old) (P.story dev.new) }
    ensures since { (base : S) (n : ℕ) → S.since base n saver.old → Within (λ m. S.since base m saver.new) (n + 1) }
    ensures frame { Framed 1 (P.story dev.old) (P.story dev.new) }
    ensures seat { P.seat dev.new ≡ P.seat dev.old }

    ensures cause_row_spent { result ≡ Err not_saved.RowSpent → S.spent saver.new }
    ensures cause_disk_fault { HasCause (P.faults dev.old) (P.faults dev.new) (result ≡ Err not_saved.DiskFault) }
{
    disk_runs::every_kept();
    disk_runs::every_prefix();
    disk_runs::every_sealed();
    disk_runs::every_residence();
    if frame % SHARDS != shard {
        return Ok(());
    }
    match saver.dirty(frame) {
        Some(_found) => saver.save(dev, frame),
        None => Ok(()),
    }
}

// Saves the dirty pages of the shard.
fn save_shard<P: Part, S: Saver<P>>(
    saver: &mut S,
    dev: &mut P,
    shard: u32,
    floor: u64,
) -> Result<(), NotSaved>
    requires ready { S.ready saver.old }
    requires area { (P.seat dev.old).area ≡ 1 }
    requires low { (o : Opening) → S.opens saver.old o → AreLow (state_after o (S.front saver.old)) shard floor (λ _. Unit {0}) }
    requires floor { (o : Opening) → S.opens saver.old o → floor ≤ flushed_by_all o (state_after o (S.front saver.old)) }
    ensures ready { (result ≡ Err not_saved.DiskFault → ⊥) → S.ready saver.new }
    ensures opens { (o : Opening) → S.opens saver.old o ↔ S.opens saver.new o }
    ensures going { OnOk result ((o : Opening) → S.opens saver.old o → Going o (S.front saver.old) (S.front saver.new) shard (λ _. Unit {0}) (S.knows saver.old) (S.knows saver.new) (P.story dev.old) (P.story dev.new)) }
    ensures stopped { result ≡ Err not_saved.RowSpent → (o : Opening) → S.opens saver.old o → IncrementStops o (S.front saver.old) (S.front saver.new) (S.knows saver.old) (S.knows saver.new) (P.story dev.old) (P.story dev.new) }
    ensures failed { IsErr result → (o : Opening) → S.opens saver.old o → IncrementFails o (S.front saver.old) (S.knows saver.old) (P.story dev.old) (P.story dev.new) }
    ensures since { (base : S) (n : ℕ) → S.since base n saver.old → Within (λ m. S.since base m saver.new) (n + S.frames_of saver.old) }
    ensures frame { Framed 1 (P.story dev.old) (P.story dev.new) }
    ensures seat { P.seat dev.new ≡ P.seat dev.old }

    ensures cause_row_spent { result ≡ Err not_saved.RowSpent → S.spent saver.new }
    ensures cause_disk_fault { HasCause (P.faults dev.old) (P.faults dev.new) (result ≡ Err not_saved.DiskFault) }
{
    disk_runs::every_residence();
    disk_runs::every_kept();
    disk_runs::every_prefix();
    disk_runs::every_sealed();
    for frame in 0..saver.frames() {
        save_in(saver, dev, frame, shard, floor)?;
    }
    Ok(())
}

/// Saves the dirty pages of a shard and syncs the pages. `floor` is the number up to which all logs are flushed, and is
/// the cover of the shard then. `Again` comes before anything is saved; `RowSpent`, behind which the saver may be called again,
/// and a fault of the disk behind some of the saves.
pub fn increment<P: Part, S: Saver<P>>(
    saver: &mut S,
    dev: &mut P,
    shard: u32,
    floor: u64,
) -> Result<(), Unsaved>
    requires ready { S.ready saver.old }
    requires area { (P.seat dev.old).area ≡ 1 }
    requires shard { shard < 8 }
    requires floor { (o : Opening) → S.opens saver.old o → floor ≡ flushed_by_all o (state_after o (S.front saver.old)) }
    ensures ready { (result ≡ Err unsaved.DiskFault → ⊥) → S.ready saver.new }
    ensures opens { (o : Opening) → S.opens saver.old o ↔ S.opens saver.new o }
    ensures saved { OnOk result ((o : Opening) → S.opens saver.old o → Increments o (S.front saver.old) (S.front saver.new) shard floor (S.knows saver.old) (S.knows saver.new) (P.story dev.old) (P.story dev.new)) }
    ensures told { IfErr result (λ why. (o : Opening) → S.opens saver.old o → TellsAgain (state_after o (S.front saver.old)) shard floor why) }
    ensures same { IsErrAnd result IsAgain → (dev.new ≡ dev.old) × Looked (S.opens saver.old) (S.opens saver.new) (S.front saver.old) (S.front saver.new) (S.knows saver.old) (S.knows saver.new) }
    ensures stopped { result ≡ Err unsaved.RowSpent → (o : Opening) → S.opens saver.old o → IncrementStops o (S.front saver.old) (S.front saver.new) (S.knows saver.old) (S.knows saver.new) (P.story dev.old) (P.story dev.new) }
    ensures failed { result ≡ Err unsaved.DiskFault → (o : Opening) → S.opens saver.old o → IncrementFails o (S.front saver.old) (S.knows saver.old) (P.story dev.old) (P.story dev.new) }
    ensures since { (base : S) (n : ℕ) → S.since base n saver.old → Within (λ m. S.since base m saver.new) (n + S.frames_of saver.old) }
    ensures frame { Framed 1 (P.story dev.old) (P.story dev.new) }
    ensures seat { P.seat dev.new ≡ P.seat dev.old }

    ensures cause_again { (o : Opening) → S.opens saver.old o → (IsErrAnd result IsAgain ↔ IsSomeAbove (state_after o (S.front saver.old)) shard floor) }
    ensures cause_row_spent { result ≡ Err unsaved.RowSpent → S.spent saver.new }
    ensures cause_disk_fault { HasCause (P.faults dev.old) (P.faults dev.new) (result ≡ Err unsaved.DiskFault) }
{
    disk_runs::every_version();
    disk_runs::every_residence();
    core_covers::every_change();
    core_covers::every_cover();
    if let Some(found) = above(saver, shard, floor) {
        return Err(Unsaved::Again {
            page: found.page,
            gsn: found.gsn,
            floor,
        });
    }
    match save_shard(saver, dev, shard, floor) {
        Ok(()) => {}
        Err(NotSaved::RowSpent) => return Err(Unsaved::RowSpent),
        Err(NotSaved::DiskFault) => return Err(Unsaved::DiskFault),
    }
    match saver.settle(dev) {
        Ok(()) => Ok(()),
        Err(DiskFault) => Err(Unsaved::DiskFault),
    }
}
