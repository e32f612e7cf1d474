// The taking of a lock row.
ghost use Rattle.std.specs.Prelude.{◌≡◌, true, IfErr, OnOk};
ghost use Rattle.map_model.specs.declared.call.Refusal.{Refusal};
ghost use Rattle.paged_desks.specs.Machines.{IsReady};
ghost use Rattle.paged_calls.specs.Steps.{HasNotTaken, HasTaken};

use crate::laws::laws;
use map_model::Refusal;
use paged_desks::{Mode, PagedMachine, Stages};
use row_room::take_row;

// The session whose turn it is takes the lock row of a key.
#[inline(always)]
pub(crate) fn take<D: Stages>(
    machine: &mut PagedMachine<D>,
    key: u64,
    mode: Mode,
) -> Result<(), Refusal>
    requires ready { IsReady D.story machine.old }
    requires open_is { machine.old.machine.work.session.is_open ≡ true }
    ensures ready { IsReady D.story machine.new }
    ensures taken { OnOk result (HasTaken key mode machine.old machine.new) }
    ensures not_taken { IfErr result (λ why. HasNotTaken why key mode machine.old machine.new) }
    // One session alone meets no other.
    ensures only { machine.old.machine.work.session.workers ≡ 1 → IfErr result (λ why. why ≡ Refusal.RowSpent) }
{
    laws();
    take_row(
        &mut machine.machine.rows,
        &mut machine.machine.seat,
        &mut machine.machine.work.session,
        &machine.machine.work.log,
        key,
        mode,
    )
}
