// What the calls rest on.
ghost use Rattle.paged_desks.specs.core_calls.Room.{EveryRoom};
ghost use Rattle.paged_desks.specs.core_disk.Versions.{EveryVersion};
ghost use Rattle.paged_desks.specs.core_paging.Paging.{EveryResidence};
ghost use Rattle.paged_desks.specs.disk_image.Laws.{EverySealed};
ghost use Rattle.paged_desks.specs.engine_calls.Answers.{EveryAnswer};
ghost use Rattle.paged_desks.specs.engine_calls.Clauses.{EveryComing};
ghost use Rattle.paged_desks.specs.page_pool.Counts.{EveryFrame};
ghost use Rattle.paged_desks.specs.page_pool.Pools.{EveryStanding};
ghost use Rattle.paged_desks.specs.row_opening.Openings.{EveryNeed, EveryReached};
ghost use Rattle.paged_desks.specs.session_state.Others.{EveryOther};
ghost use Rattle.paged_desks.specs.worker_log.Laws.{EveryKept, EveryPrefix};

// The laws of versions, logs, seals and openings, of answers, of other sessions, of what the pager knows over their steps, of places and frames, and of room for a key.
pub(crate) fn laws()
    ensures versions { EveryVersion }
    ensures kept { EveryKept }
    ensures prefixes { EveryPrefix }
    ensures seals { EverySealed }
    ensures reached { EveryReached }
    ensures needs { EveryNeed }
    ensures answers { EveryAnswer }
    ensures coming { EveryComing }
    ensures others { EveryOther }
    ensures standing { EveryStanding }
    ensures frames { EveryFrame }
    ensures residence { EveryResidence }
    ensures room { EveryRoom }
{
    paged_desks::every_version();
    paged_desks::every_kept();
    paged_desks::every_prefix();
    paged_desks::every_sealed();
    paged_desks::every_reached();
    paged_desks::every_need();
    paged_desks::every_answer();
    paged_desks::every_coming();
    paged_desks::every_other();
    paged_desks::every_standing();
    paged_desks::every_frame();
    paged_desks::every_residence();
    paged_desks::every_room();
}
