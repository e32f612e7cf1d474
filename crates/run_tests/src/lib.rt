//! Tables of faults and crashes over the program's one call, on a disk in memory.
#![tactic(auto)]

ghost use Rattle.std.specs.Prelude.{codes};
ghost use Rattle.lean_shell.specs.disk_slots.Slots as slots;
ghost use Rattle.lean_shell.specs.log_block.Block as blocks;
ghost use Rattle.run_tests.specs.Laws.{EveryNextRun};
ghost use Rattle.run_tests.specs.RuledOut.{EveryDurableIsFound, EveryFirstBegin, EveryFirstCommit, EveryKeyStands, EveryLineIsAnswered, EveryOtherKeyStands, EveryReadIsFair, EveryStoppedCall};
ghost use Rattle.run_tests.specs.Ties.{EveryConflictIsAborted, EveryFlushedIsLeft, EveryHandIsNext, EveryPairIsHeld, EveryUsedIsWritten};

use lean_disk::Disk;

/// What a run asks of its disk holds after a crash of the run before it.
pub fn every_next_run()
    ensures { EveryNextRun }
{
    lean_disk::every_area();
    lean_disk::every_moment();
}

/// A crash leaves each key as it was on entry, if no transaction that is kept wrote it.
pub fn every_key_stands<D: Disk>(disk: &D)
    ensures { EveryKeyStands (D.story disk.now) }
{}

/// A crash leaves each key as it was on entry, if no line of the script asks to write it.
pub fn every_other_key_stands<D: Disk>(disk: &D)
    ensures { EveryOtherKeyStands (D.story disk.now) }
{}

/// A crash leaves the commit of each transaction that was told durable.
pub fn every_durable_is_found<D: Disk>(disk: &D)
    ensures { EveryDurableIsFound (D.story disk.now) }
{}

/// A run's first begin is not refused.
pub fn every_first_begin<D: Disk>(disk: &D)
    ensures { EveryFirstBegin (D.story disk.now) }
{
    lean_shell::every_master_in();
}

/// A run's first commit has the number behind the greatest of the disk.
pub fn every_first_commit<D: Disk>(disk: &D)
    ensures { EveryFirstCommit (D.story disk.now) }
{
    lean_shell::every_master_in();
}

/// What a call that was not answered leaves is what a line of the script may do: only a put changes the tree, and only an abort puts back.
pub fn every_stopped_call()
    ensures { EveryStoppedCall }
{}

/// A run on a clean disk, where nothing fails, refuses no line of the grammar and leaves none out.
pub fn every_line_is_answered<D: Disk>(old: &D, new: &D)
    ensures { EveryLineIsAnswered (D.story old.now) (D.story new.now) }
{}

/// What an area holds after writes of any places and lengths in it is a fair image.
pub fn every_read_is_fair()
    ensures masters { EveryReadIsFair 1024 (slots.IsSealed (codes "LEANMAST")) }
    ensures pages { EveryReadIsFair 1024 (slots.IsSealed (codes "LEANPAGE")) }
    ensures log { EveryReadIsFair 2048 blocks.IsSealed }
{}

/// Behind a conflict the abort was executed, where the engine works on.
pub fn every_conflict_is_aborted<D: Disk>(old: &D, new: &D)
    ensures { EveryConflictIsAborted (D.story old.now) (D.story new.now) }
{}

/// Each pair that a scan told was locked by its session, and stood there.
pub fn every_pair_is_held<D: Disk>(old: &D, new: &D)
    ensures { EveryPairIsHeld (D.story old.now) (D.story new.now) }
{}

/// The commit in hand is what the script's next line asks.
pub fn every_hand_is_next()
    ensures { EveryHandIsNext }
{}

/// A crash leaves each record that is flushed.
pub fn every_flushed_is_left()
    ensures { EveryFlushedIsLeft }
{}

/// Of the blocks that a log uses all but one lie on the disk at the end.
pub fn every_used_is_written<D: Disk>(old: &D, new: &D)
    ensures { EveryUsedIsWritten (D.story old.now) (D.story new.now) }
{}

#[cfg(test)]
mod cases;
#[cfg(test)]
mod dumps;
#[cfg(test)]
mod fours;
#[cfg(test)]
mod rows;
#[cfg(test)]
mod runs;
#[cfg(test)]
mod scripts;
#[cfg(test)]
mod sweeps;
#[cfg(test)]
mod trees;
