// What the calls rest on.
ghost use Rattle.paged_desks.specs.core_calls.LogEvents.{EveryWhere};
ghost use Rattle.paged_desks.specs.core_disk.Versions.{EveryVersion};
ghost use Rattle.paged_desks.specs.disk_image.Laws.{EverySealed};
ghost use Rattle.paged_desks.specs.engine_calls.Answers.{EveryAnswer};
ghost use Rattle.paged_desks.specs.engine_calls.Clauses.{EveryComing};
ghost use Rattle.paged_desks.specs.engine_calls.Entries.{EveryEntry};
ghost use Rattle.paged_desks.specs.page_pool.Counts.{EveryFrame};
ghost use Rattle.paged_desks.specs.page_pool.Pools.{EveryStanding};
ghost use Rattle.paged_desks.specs.row_opening.Openings.{EveryNeed, EveryOpened, EveryReached};
ghost use Rattle.paged_desks.specs.session_state.Others.{EveryOther};
ghost use Rattle.paged_desks.specs.session_state.Reserves.{EveryReserve};
ghost use Rattle.sync_counts.specs.Syncs.{EverySyncCount, EveryTight};
ghost use Rattle.paged_desks.specs.worker_log.Laws.{EveryKept, EveryPrefix};

// The laws of versions, logs, seals and openings, of answers and entries, of other sessions, of what the pager knows over their steps, of the syncs that pages ask for, and of the
// blocks that are kept for an abort.
pub(crate) fn laws()
    ensures versions { EveryVersion }
    ensures kept { EveryKept }
    ensures prefixes { EveryPrefix }
    ensures seals { EverySealed }
    ensures places { EveryWhere }
    ensures reached { EveryReached }
    ensures needs { EveryNeed }
    ensures answers { EveryAnswer }
    ensures coming { EveryComing }
    ensures entries { EveryEntry }
    ensures others { EveryOther }
    ensures standing { EveryStanding }
    ensures frames { EveryFrame }
    ensures opened { EveryOpened }
    ensures reserve { EveryReserve }
    ensures tights { EveryTight }
    ensures counts { EverySyncCount }
{
    paged_desks::every_where();
    paged_desks::call_parts_laws();
    paged_desks::every_answer();
    paged_desks::every_coming();
    paged_desks::every_entry();
    paged_desks::every_other();
    paged_desks::every_standing();
    paged_desks::every_frame();
    paged_desks::every_opened();
    paged_desks::every_reserve();
    sync_counts::every_tight();
    sync_counts::every_sync_count();
}
