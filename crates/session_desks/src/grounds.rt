// What the calls of a machine stand on.
ghost use Rattle.session_state.specs.core_disk.Versions.{EveryVersion};
ghost use Rattle.session_state.specs.worker_log.Laws.{EveryKept, EveryPrefix};
ghost use Rattle.session_state.specs.disk_image.Laws.{EverySealed};
ghost use Rattle.session_state.specs.row_opening.Openings.{EveryNeed, EveryReached};

/// The laws of versions, logs, seals and openings.
pub fn laws()
    ensures versions { EveryVersion }
    ensures kept { EveryKept }
    ensures prefixes { EveryPrefix }
    ensures seals { EverySealed }
    ensures reached { EveryReached }
    ensures needs { EveryNeed }
{
    session_state::every_version();
    session_state::every_kept();
    session_state::every_prefix();
    session_state::every_sealed();
    session_state::every_reached();
    session_state::every_need();
}
