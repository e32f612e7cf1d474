// What the steps of a scan rest on.
ghost use Rattle.paged_calls.specs.core_disk.Versions.{EveryVersion};
ghost use Rattle.paged_calls.specs.core_paging.Paging.{EveryResidence};
ghost use Rattle.paged_calls.specs.disk_image.Laws.{EverySealed};
ghost use Rattle.paged_calls.specs.engine_calls.Answers.{EveryAnswer};
ghost use Rattle.paged_calls.specs.engine_calls.Clauses.{EveryComing};
ghost use Rattle.paged_calls.specs.page_pool.Counts.{EveryFrame};
ghost use Rattle.paged_calls.specs.row_opening.Openings.{EveryNeed, EveryReached};
ghost use Rattle.paged_calls.specs.session_state.Others.{EveryOther};
ghost use Rattle.paged_calls.specs.worker_log.Laws.{EveryKept, EveryPrefix};

// The laws of versions, logs, seals and openings, of answers, of other sessions, and of places and frames.
pub(crate) fn laws()
    ensures versions { EveryVersion }
    ensures kept { EveryKept }
    ensures prefixes { EveryPrefix }
    ensures seals { EverySealed }
    ensures reached { EveryReached }
    ensures needs { EveryNeed }
    ensures answers { EveryAnswer }
    ensures coming { EveryComing }
    ensures frames { EveryFrame }
    ensures others { EveryOther }
    ensures residence { EveryResidence }
{
    paged_calls::every_version();
    paged_calls::every_kept();
    paged_calls::every_prefix();
    paged_calls::every_sealed();
    paged_calls::every_reached();
    paged_calls::every_need();
    paged_calls::every_answer();
    paged_calls::every_coming();
    paged_calls::every_frame();
    paged_calls::every_other();
    paged_calls::every_residence();
}
