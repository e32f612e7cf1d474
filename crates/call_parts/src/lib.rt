//! A call of an engine in parts, where pages come into frames and leave them: definitions and their laws.
//!
//! Read specs/Parts and specs/Laws, then specs/Deeds. The parameters of a law are the disk as it is before a part of a call, between two parts, and
//! behind them.
#![tactic(auto)]

ghost use Rattle.session_state.specs.core_disk.Versions.{EveryVersion};
ghost use Rattle.session_state.specs.disk_image.Laws.{EverySealed};
ghost use Rattle.session_state.specs.row_opening.Openings.{EveryNeed, EveryReached};
ghost use Rattle.session_state.specs.worker_log.Laws.{EveryKept, EveryPrefix};
ghost use Rattle.call_parts.specs.ByHand.{Worked};
ghost use Rattle.call_parts.specs.Laws.{EveryArea, EveryEnd, EveryEnter, EveryJoin, EveryMemory, EveryOwn, EverySight, EveryStep, EveryStill};

use lean_disk::Disk;

// Passed on to the crates above.
pub use session_state::{
    Body, Clock, DEEPEST, DiskFault, FreePages, Heads, HeldRows, Latches, Master,
    MasterStoreDiskFault, Mode, Node, PageRef, Path, Record, Rows, Session, Staged, Stages,
    Staging, Unanswered, UndoList, Undone, Unread, Unserved, Way, Work, WorkerLog, block_bytes,
    choose, disk_runs_every_opened, every_agreement, every_answer, every_begun, every_block_in,
    every_coming, every_entry, every_flush, every_kept, every_line_count, every_low,
    every_master_in, every_met, every_need, every_opened, every_other, every_prefix, every_printed,
    every_reached, every_reserve, every_residence, every_rise, every_room, every_run_crash,
    every_sealed, every_shown, every_sound, every_told, every_undone, every_version, every_warm,
    every_where, fetch, further_session, master_bytes, page_bytes, reach, save, spare, stage_end,
    write_next,
};

/// The laws of versions, logs, seals and openings, on which those below stand.
pub fn laws()
    ensures versions { EveryVersion }
    ensures kept { EveryKept }
    ensures prefixes { EveryPrefix }
    ensures seals { EverySealed }
    ensures reached { EveryReached }
    ensures needs { EveryNeed }
{
    session_state::every_version();
    session_state::every_kept();
    session_state::every_prefix();
    session_state::every_sealed();
    session_state::every_reached();
    session_state::every_need();
}

/// Events are seen one after another.
pub fn every_sight()
    ensures { EverySight }
{}

/// Which records a change and an end enter.
pub fn every_enter()
    ensures { EveryEnter }
{
    session_state::every_entry();
}

/// Events that no log has are a part of a call, and so are pages that are moved; and what is left where that failed.
pub fn every_step<D: Disk>(old: &D, new: &D)
    ensures { EveryStep (D.story old.now) (D.story new.now) }
{
    laws();
}

/// So are a record that is staged, and a flush of the session's log.
pub fn every_own<D: Disk>(old: &D, new: &D)
    ensures { EveryOwn (D.story old.now) (D.story new.now) }
{
    laws();
}

/// So is what touches no page, as a sync of all logs, said in the words of an engine whose pages are all in memory.
pub fn every_still<D: Disk>(old: &D, new: &D)
    ensures { EveryStill (D.story old.now) (D.story new.now) }
{}

/// In which areas a step works.
pub fn every_area<D: Disk>(old: &D, new: &D)
    ensures { EveryArea (D.story old.now) (D.story new.now) }
{}

/// A part behind a part is one, and what failed behind a part has failed.
pub fn every_join<D: Disk>(old: &D, mid: &D, new: &D)
    ensures { EveryJoin (D.story old.now) (D.story mid.now) (D.story new.now) }
{
    laws();
    session_state::every_move(old, mid, new);
}

/// A part is one however its memory is written.
pub fn every_memory<D: Disk>(old: &D, new: &D)
    ensures { EveryMemory (D.story old.now) (D.story new.now) }
{}

/// A call whose parts are told is answered by them, and one that failed has failed.
pub fn every_end<D: Disk>(old: &D, new: &D)
    ensures { EveryEnd (D.story old.now) (D.story new.now) }
{}

/// A lock and a read, joined: what a step shows can be shown.
pub fn worked<D: Disk>(now: &D)
    ensures { Worked (D.story now.now) }
{
    every_step(now, now);
    every_join(now, now, now);
}
