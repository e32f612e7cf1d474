//! What the lines of a script are answered, as events of the core: definitions and their laws.
#![tactic(auto)]

ghost use Rattle.core_calls.specs.Runs.{EveryMet, EveryReleased, EveryRun};
ghost use Rattle.core_calls.specs.Alone.{EveryAlone};
ghost use Rattle.core_calls.specs.Crashes.{EveryRunCrash};
ghost use Rattle.core_calls.specs.Durables.{EveryCommit, EveryDue, EveryDurable, EverySynced};
ghost use Rattle.core_calls.specs.Counts.{EveryOrdered};
ghost use Rattle.core_calls.specs.Controls.{EveryControl, EveryScanControl, EveryStepControl};
ghost use Rattle.core_calls.specs.LineCounts.{EveryLineCount};
ghost use Rattle.core_calls.specs.Lines.{EveryRoundScript, EveryScript};
ghost use Rattle.core_calls.specs.LogEvents.{EveryWhere};
ghost use Rattle.core_calls.specs.Presses.{EveryPress, WorkedPress};
ghost use Rattle.core_calls.specs.Printed.{EveryPrinted};
ghost use Rattle.core_calls.specs.Refusals.{EveryHinder};
ghost use Rattle.core_calls.specs.Rounds.{EveryFinish, EveryRound, EveryRoundSynced};
ghost use Rattle.core_calls.specs.Room.{EveryRoom};
ghost use Rattle.core_calls.specs.Rows.{Rows, WorkedRoom};
ghost use Rattle.core_calls.specs.Told.{EveryTold};
ghost use Rattle.core_calls.specs.Warms.{EveryWarm};

/// The journal that the outcomes of lines tell is the core's: it is serial, and what an image keeps of it is closed and
/// holds each ripe one.
pub fn every_told()
    ensures { EveryTold }
{
    map_model::every_order();
    map_model::every_closed();
    core_crash::every_serial();
    core_crash::every_crash();
}

/// Outcomes one after another are those of all their events; between two events at most one commit's reply is not out.
pub fn every_run()
    ensures { EveryRun }
{}

/// Where all durable lines that are due are printed at each moment, each is that of a ripe commit, which every later crash
/// keeps; each ripe commit has one, once; and behind a sync each commit has.
pub fn every_durable()
    ensures { EveryDurable }
{
    core_crash::every_rise();
    every_told();
}

/// Behind a commit fewer than so many commits of its log wait to be flushed as make a group; where each is flushed, and it
/// needs no other log, its durable line follows at once.
pub fn every_commit()
    ensures { EveryCommit }
{
    core_crash::every_rise();
}

/// Scripts by hand, each line with its events.
pub fn worked_rows()
    ensures { Rows }
{}

/// A session's begins are counted, its ends are numbered by them and rise; each put-back puts back the newest change that is
/// left, and an abort comes when none is left.
pub fn every_ordered()
    ensures { EveryOrdered }
{}

/// Rounds of outcomes are those of all their events, whatever the workers did beside each other.
pub fn every_round()
    ensures { EveryRound }
{}

/// The first of the printed lines have the answers of the first outcomes, and report only what was due behind these.
pub fn every_printed()
    ensures { EveryPrinted }
{}

/// Wrong outcomes are refused: a get that is answered from the opening, a durable line before its time, a put-back that was
/// lost, commit numbers that do not rise, and a wrong count.
pub fn every_control()
    ensures { EveryControl }
{
    every_told();
    every_durable();
    every_ordered();
}

/// Wrong events of a call are refused: a row that is not taken, is taken alone, or is another's; a sync, a put-back or room that
/// nothing asked for; and whatever a call did that was refused before it was begun.
pub fn every_step_control()
    ensures { EveryStepControl }
{}

/// Walks that take other rows than a scan are refused: none for a tombstone, none for a pair whose row the session has already, one of no
/// entry, one behind the last gap; and a conflict about the row of no entry.
pub fn every_scan_control()
    ensures { EveryScanControl }
{}

/// Wherever a crash falls in a run on one thread, the transactions that were told by then, with at most one in hand, are
/// serial, and recovery gives the map after a closed set of them that holds each that was reported durable.
pub fn every_run_crash()
    ensures { EveryRunCrash }
{
    every_told();
    every_run();
    every_durable();
    every_printed();
}

/// Behind a sync that was answered each commit has its durable line.
pub fn every_synced()
    ensures { EverySynced }
{
    every_durable();
}

/// A call that was not finished in its round, and is executed again, has one outcome for all that it did.
pub fn every_finish()
    ensures { EveryFinish }
{}

/// Behind a round's sync every image keeps every transaction.
pub fn every_round_synced()
    ensures { EveryRoundSynced }
{
    core_crash::every_rise();
    every_told();
}

/// On one thread the lines that were executed and the printed ones make the transcript; and so do the first of these.
pub fn every_script()
    ensures { EveryScript }
{
    map_model::every_script();
    map_model::every_count();
    every_printed();
}

/// Each line has at most so many answers as a scan may tell pairs, and two more; one that is no scan has at most two. There are
/// no more durable lines than answers.
pub fn every_line_count()
    ensures { EveryLineCount }
{
    every_durable();
}

/// Who may not have a row is hindered by one, the holder or else the least other reader.
pub fn every_hinder()
    ensures { EveryHinder }
{}

/// The nodes of a key's way tell how many of them are full, from the leaf up to the lowest that is not; a split and a lift take the least
/// free page where they name it, and a change takes none.
pub fn every_room()
    ensures { EveryRoom }
{}

/// A full leaf by hand: how many pages room takes before the lift, before the split and behind it, and when there is none.
pub fn worked_room()
    ensures { WorkedRoom }
{}

/// Syncs that stand where a page that is needed finds no frame: how lists of events with them are put together.
pub fn every_where()
    ensures { EveryWhere }
{}

/// A sync for a page is due exactly where no frame can be given to it: with one that could be, it is not; without, no move of
/// pages brings the page into a frame.
pub fn every_press()
    ensures { EveryPress }
{
    core_crash::every_residence();
    core_crash::every_saved();
}

/// A put by hand that finds no frame: where the sync stands, where it may not, and that nothing helps without it.
pub fn worked_press()
    ensures { WorkedPress }
{
    every_press();
}

/// Each page of a key's way at which a descent stops is below the one before; so one that is begun again ends within as many
/// faults as the tree has levels.
pub fn every_warm()
    ensures { EveryWarm }
{}

/// Durable lines stand in the order of commit numbers, ties by session.
pub fn every_due()
    ensures { EveryDue }
{
    map_model::every_order();
}

/// So on many threads, in whatever order the answers are printed.
pub fn every_round_script()
    ensures { EveryRoundScript }
{
    map_model::every_round_script();
    map_model::every_count();
}

/// Where a scan tells a pair, or is over, its session has the row of each entry that it met, tombstones too.
pub fn every_met()
    ensures { EveryMet }
{}

/// A session with no open transaction holds no row.
pub fn every_released()
    ensures { EveryReleased }
{}

/// With one worker, whose commits are each flushed at once, the durable line of each commit alone follows it, and none follows
/// another line.
pub fn every_alone()
    ensures { EveryAlone }
{
    core_crash::every_need();
    core_crash::every_holder();
    core_crash::every_floor();
    core_crash::every_rise();
    every_durable();
    every_commit();
}
