//! A cut: the head of each log passes the blocks that have no record above a number, and their places can be written
//! again.
ghost use Rattle.std.specs.Prelude.{◌≡◌, ◌≤◌, ◌<◌, ◌+◌, ◌^◌, ◌↔◌, ℕ, IfOk, IfSome, IsErr, OnOk, length, true};
ghost use Rattle.lean_disk.specs.Faults.{HasCause};
ghost use Rattle.lean_disk.specs.Moments.{CrashIn, Framed, LeavesOnly};
ghost use Rattle.log_calls.specs.Calls.{Anything};
ghost use Rattle.log_calls.specs.Cuts.{CutsOn, KeepsCut as KeepsMaster};
ghost use Rattle.disk_runs.specs.worker_log.Logs.{passed_by};
ghost use Rattle.checkpointer.specs.Cuts.{ArePassed, AreRings, CutGoes, KeepsCut};
ghost use Rattle.checkpointer.specs.Inside.{AreHeads, AreSame, next_cut};
ghost use Rattle.checkpointer.specs.Numbers.{IsNumber};

use crate::number::cut_number;
use crate::rings::Rings;
use disk_runs::{DiskFault, Heads, Master};
use lean_disk::{Did, Disk};
use log_calls::cut_master;

// The heads behind the blocks that have no record above the number.
fn next_heads<L: Rings>(rings: &L, number: u64) -> Heads
    requires few { L.count_of rings.now ≤ 16 }
    ensures { AreHeads number (L.count_of rings.now) (L.log_of rings.now) result }
{
    let mut heads = Heads::new(rings.count());
    for log in 1..rings.count() + 1 {
        heads.set_head(log, rings.head_above(log, number));
    }
    heads
}

// Whether the heads are the master's.
fn are_heads(heads: &Heads, master: &Master) -> bool
    requires logs { length heads.now ≡ length master.now.heads }
    ensures { result ≡ true ↔ AreSame heads.now master.now.heads }
{
    for log in 1..heads.logs() + 1 {
        if heads.head(log) != master.heads.head(log) {
            return false;
        }
    }
    true
}

// Writes the next master, with these heads and this floor.
fn install<D: Disk>(
    disk: &mut D,
    master: &mut Master,
    heads: Heads,
    floor: u64,
) -> Result<(), DiskFault>
    requires sequence { master.old.sequence + 1 < 2 ^ 63 }
    ensures master { OnOk result (master.new ≡ next_cut master.old heads floor) }
    ensures stands { OnOk result (CutsOn (next_cut master.old heads floor) (D.story disk.old) (D.story disk.new)) }
    ensures any_moment { KeepsMaster (next_cut master.old heads floor) (D.story disk.old) (D.story disk.new) }
    ensures frame { Framed 0 (D.story disk.old) (D.story disk.new) }
    ensures within { LeavesOnly (D.story disk.old) (D.story disk.new) (CrashIn (D.story disk.old) 0 Anything) }

    ensures cause { HasCause (D.faults disk.old) (D.faults disk.new) (IsErr result) }
{
    let next = Master {
        sequence: master.sequence + 1,
        generation: master.generation,
        floor,
        pages: master.pages,
        blocks: master.blocks,
        heads,
    };
    let Did::Done = cut_master(disk, &next) else {
        return Err(DiskFault);
    };
    *master = next;
    Ok(())
}

// Each head passes its blocks.
fn pass_all<L: Rings>(rings: &mut L, number: u64)
    requires few { L.count_of rings.old ≤ 16 }
    requires short { (w : ℕ) → 0 < w → w ≤ L.count_of rings.old → (L.log_of rings.old w).next < 2 ^ 63 }
    ensures count { L.count_of rings.new ≡ L.count_of rings.old }
    ensures passed { ArePassed number (L.count_of rings.old) (L.log_of rings.old) (L.log_of rings.new) }
{
    for log in 1..rings.count() + 1 {
        rings.pass(log, number);
    }
}

/// Cuts all logs at the number that eight covers, the number up to which all logs are flushed (`floor`) and the first
/// record of the open transactions give. Where a head moves, the next master of the run is written with the new heads and
/// this floor, and synced; else nothing is written. The answer is the number.
///
/// The only error is a fault of the disk: then no head has moved in memory, and a crash leaves what one before the cut
/// does or what one after it does.
pub fn cut<D: Disk, L: Rings>(
    disk: &mut D,
    rings: &mut L,
    master: &mut Master,
    covers: &[u64; 8],
    floor: u64,
    first: Option<u64>,
) -> Result<u64, DiskFault>
    requires rings { AreRings (L.count_of rings.old) (L.log_of rings.old) master.old }
    requires first { IfSome first (λ n. 0 < n) }
    ensures count { L.count_of rings.new ≡ L.count_of rings.old }
    ensures number { IfOk result (IsNumber covers.now floor first) }
    ensures passed { IfOk result (λ x. ArePassed x (L.count_of rings.old) (L.log_of rings.old) (L.log_of rings.new)) }
    ensures go { IfOk result (λ x. CutGoes x floor (L.count_of rings.old) (L.log_of rings.old) (L.log_of rings.new) master.old master.new (D.story disk.old) (D.story disk.new)) }
    ensures still { IfOk result (λ x. ((w : ℕ) → 0 < w → w ≤ L.count_of rings.old → passed_by x (L.log_of rings.old w).ends ≡ 0) → (disk.new ≡ disk.old) × (master.new ≡ master.old)) }
    ensures keeps { (x : ℕ) → IsNumber covers.now floor first x → KeepsCut x floor (L.count_of rings.old) (L.log_of rings.old) master.old (D.story disk.old) (D.story disk.new) }
    ensures frame { Framed 0 (D.story disk.old) (D.story disk.new) }

    ensures cause { HasCause (D.faults disk.old) (D.faults disk.new) (IsErr result) }
{
    disk_runs::every_version();
    disk_runs::every_passed();
    disk_runs::every_kept();
    disk_runs::every_prefix();
    disk_runs::every_sealed();
    let number = cut_number(covers, floor, first);
    let heads = next_heads(rings, number);
    if are_heads(&heads, master) {
        return Ok(number);
    }
    install(disk, master, heads, floor)?;
    pass_all(rings, number);
    Ok(number)
}
