// What the calls rest on.
ghost use Rattle.desk_parts.specs.core_calls.Warms.{EveryWarm};
ghost use Rattle.core_covers.specs.Lows.{EveryLow, EverySync};
ghost use Rattle.desk_parts.specs.core_disk.Versions.{EveryVersion};
ghost use Rattle.desk_parts.specs.disk_image.Laws.{EverySealed};
ghost use Rattle.page_pool.specs.Counts.{EveryFrame};
ghost use Rattle.desk_parts.specs.page_provider.Amounts.{EveryFew};
ghost use Rattle.desk_parts.specs.page_provider.Sequels.{EverySequel};
ghost use Rattle.desk_parts.specs.row_opening.Openings.{EveryNeed, EveryReached};
ghost use Rattle.desk_parts.specs.session_state.Syncs.{EveryFlush};
ghost use Rattle.desk_parts.specs.worker_log.Laws.{EveryKept, EveryPrefix};

// The laws of ways, of syncs, of the pager's calls, and of rows in a run.
pub(crate) fn laws()
    ensures warm { EveryWarm }
    ensures low { EveryLow }
    ensures flush { EveryFlush }
    ensures sync { EverySync }
    ensures few { EveryFew }
    ensures frames { EveryFrame }
    ensures sequel { EverySequel }
    ensures reached { EveryReached }
    ensures needs { EveryNeed }
    ensures versions { EveryVersion }
    ensures kept { EveryKept }
    ensures prefixes { EveryPrefix }
    ensures seals { EverySealed }
{
    desk_parts::every_warm();
    core_covers::every_low();
    core_covers::every_sync();
    desk_parts::every_flush();
    desk_parts::every_few();
    page_pool::every_frame();
    desk_parts::every_sequel();
    desk_parts::every_reached();
    desk_parts::every_need();
    desk_parts::laws();
}
