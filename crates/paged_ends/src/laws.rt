// What the calls rest on.
ghost use Rattle.paged_desks.specs.core_disk.Versions.{EveryVersion};
ghost use Rattle.paged_desks.specs.disk_image.Laws.{EverySealed};
ghost use Rattle.paged_desks.specs.engine_calls.Answers.{EveryAnswer};
ghost use Rattle.paged_desks.specs.engine_calls.Clauses.{EveryComing};
ghost use Rattle.paged_desks.specs.engine_calls.Entries.{EveryEntry};
ghost use Rattle.paged_desks.specs.page_pool.Pools.{EveryStanding};
ghost use Rattle.paged_desks.specs.row_opening.Openings.{EveryNeed, EveryReached};
ghost use Rattle.paged_desks.specs.session_state.Others.{EveryOther};
ghost use Rattle.paged_desks.specs.session_state.Syncs.{EveryFlush};
ghost use Rattle.paged_desks.specs.worker_log.Laws.{EveryKept, EveryPrefix};

// The laws of versions, logs, seals and openings, of answers and entries, of other sessions and of flushes, and of what the pager knows over their steps.
pub(crate) fn laws()
    ensures versions { EveryVersion }
    ensures kept { EveryKept }
    ensures prefixes { EveryPrefix }
    ensures seals { EverySealed }
    ensures reached { EveryReached }
    ensures needs { EveryNeed }
    ensures answers { EveryAnswer }
    ensures coming { EveryComing }
    ensures entries { EveryEntry }
    ensures others { EveryOther }
    ensures flush { EveryFlush }
    ensures standing { EveryStanding }
{
    paged_desks::call_parts_laws();
    paged_desks::every_answer();
    paged_desks::every_coming();
    paged_desks::every_entry();
    paged_desks::every_other();
    paged_desks::every_flush();
    paged_desks::every_standing();
}
