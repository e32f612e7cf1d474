// The deleting of a key whose row is held alone, wherever the pages of its way are: the tree is tidied before the key is changed.
ghost use Rattle.std.specs.Prelude.{◌≡◌, ◌<◌, ◌-◌, ◌^◌, IsErrAnd, Err, true};
ghost use Rattle.paged_desks.specs.engine_trait.Serving.{disk_fault};
ghost use Rattle.lean_disk.specs.Faults.{HasCause};
ghost use Rattle.paged_desks.specs.Machines.{IsReady, pages, view_of};
ghost use Rattle.paged_desks.specs.paged_rows.Paged.{IsWarm};
ghost use Rattle.row_room.specs.row_changes.Dels.{Dels as Did};
ghost use Rattle.row_room.specs.row_changes.Puts.{works_behind as works_after_try};
ghost use Rattle.row_room.specs.row_changes.Ways.{IsCut};
ghost use Rattle.row_room.specs.row_changes.declared.ways.Unmade.{Unmade};
ghost use Rattle.row_walks.specs.AtOnce.{DelsAtOnce};
ghost use Rattle.row_walks.specs.declared.steps.At.TheVariants as stage;
ghost use Rattle.paged_desks.specs.session_desks.Parts.{AreAsMany, SeatFits};
ghost use Rattle.paged_desks.specs.session_state.Holds.{IsSameSession};
ghost use Rattle.paged_desks.specs.Calls.{IsAside, works_behind};
ghost use Rattle.paged_calls.specs.Changes.{MayStill, as_made};
ghost use Rattle.paged_calls.specs.Tidyings.{Dels, MayDel, most_a_del};

use crate::laws::laws;
use crate::tidying::tidy;
use paged_desks::{PagedMachine, Stages, Unserved};
use row_room::{Unmade, del_held};
use row_walks::{AtOnce, del_at_once};

// Takes the value of the key away in its leaf, unless a page of its way is not hot.
fn del_in_leaf<D: Stages>(machine: &mut PagedMachine<D>, key: u64) -> Result<Option<u64>, Unmade>
    requires ready { IsReady D.story machine.old }
    requires may { MayDel key stage.Over machine.old }
    requires small { machine.old.machine.work.session.clock.clock < 2 ^ 62 }
    requires key { key < 2 ^ 64 - 1 }
    ensures works { machine.new.machine.work.session.works ≡ works_after_try result }
    ensures ready { works_after_try result ≡ true → IsReady D.story machine.new }
    ensures fits { SeatFits machine.new.machine }
    ensures dels { Did result machine.old.machine.work.session.own (view_of machine.old) (view_of machine.new) key machine.old.machine.work.log machine.new.machine.work.log (D.story machine.old.machine.work.disk) (D.story machine.new.machine.work.disk) (machine.new.machine.work ≡ machine.old.machine.work) (machine.new.machine.work.disk ≡ machine.old.machine.work.disk) }
    ensures aside { IsAside machine.old machine.new }
    ensures session { IsSameSession machine.old.machine.work.session machine.new.machine.work.session }
    ensures is_half_aborted { machine.new.machine.work.session.works ≡ true → machine.new.machine.work.session.is_half_aborted ≡ machine.old.machine.work.session.is_half_aborted }

    ensures cause_cold { IsWarm (pages machine.old) key 0 → IsErrAnd result IsCut → ⊥ }
    ensures cause_disk_fault { HasCause (D.faults machine.old.machine.work.disk) (D.faults machine.new.machine.work.disk) (result ≡ Err (Unmade.Unserved disk_fault)) }
{
    laws();
    del_held(
        &mut machine.machine.rows,
        &mut machine.machine.seat,
        &mut machine.machine.work,
        key,
    )
}

// Takes it away in its leaf, where each page of its way is hot.
fn del_hot<D: Stages>(machine: &mut PagedMachine<D>, key: u64) -> Result<Option<u64>, Unserved>
    requires ready { IsReady D.story machine.old }
    requires may { MayDel key stage.Over machine.old }
    requires small { machine.old.machine.work.session.clock.clock < 2 ^ 62 }
    requires key { key < 2 ^ 64 - 1 }
    requires warm { IsWarm (pages machine.old) key 0 }
    ensures works { machine.new.machine.work.session.works ≡ works_after_try (as_made result) }
    ensures ready { works_after_try (as_made result) ≡ true → IsReady D.story machine.new }
    ensures fits { SeatFits machine.new.machine }
    ensures dels { Did (as_made result) machine.old.machine.work.session.own (view_of machine.old) (view_of machine.new) key machine.old.machine.work.log machine.new.machine.work.log (D.story machine.old.machine.work.disk) (D.story machine.new.machine.work.disk) (machine.new.machine.work ≡ machine.old.machine.work) (machine.new.machine.work.disk ≡ machine.old.machine.work.disk) }
    ensures aside { IsAside machine.old machine.new }
    ensures session { IsSameSession machine.old.machine.work.session machine.new.machine.work.session }
    ensures is_half_aborted { machine.new.machine.work.session.works ≡ true → machine.new.machine.work.session.is_half_aborted ≡ machine.old.machine.work.session.is_half_aborted }

    ensures cause_disk_fault { HasCause (D.faults machine.old.machine.work.disk) (D.faults machine.new.machine.work.disk) (as_made result ≡ Err (Unmade.Unserved disk_fault)) }
{
    match del_in_leaf(machine, key) {
        Ok(was) => Ok(was),
        Err(unmade) => Err(row_room::unserved_of(unmade)),
    }
}

// Takes the value of the key away in its leaf, if nothing is to be tidied there.
fn del_thick<D: Stages>(machine: &mut PagedMachine<D>, key: u64) -> Result<AtOnce, Unmade>
    requires ready { IsReady D.story machine.old }
    requires may { MayDel key stage.Before machine.old }
    requires small { machine.old.machine.work.session.clock.clock < 2 ^ 62 }
    requires key { key < 2 ^ 64 - 1 }
    ensures works { machine.new.machine.work.session.works ≡ works_after_try result }
    ensures ready { works_after_try result ≡ true → IsReady D.story machine.new }
    ensures fits { SeatFits machine.new.machine }
    ensures dels { DelsAtOnce result key (view_of machine.old) (view_of machine.new) machine.old.machine.work.session machine.old.machine.work.log machine.new.machine.work.log (D.story machine.old.machine.work.disk) (D.story machine.new.machine.work.disk) (machine.new.machine.work ≡ machine.old.machine.work) (machine.new.machine.work.disk ≡ machine.old.machine.work.disk) }
    ensures aside { IsAside machine.old machine.new }
    ensures session { IsSameSession machine.old.machine.work.session machine.new.machine.work.session }
    ensures is_half_aborted { machine.new.machine.work.session.works ≡ true → machine.new.machine.work.session.is_half_aborted ≡ machine.old.machine.work.session.is_half_aborted }

    ensures cause_disk_fault { HasCause (D.faults machine.old.machine.work.disk) (D.faults machine.new.machine.work.disk) (result ≡ Err (Unmade.Unserved disk_fault)) }
{
    laws();
    del_at_once(
        &mut machine.machine.rows,
        &mut machine.machine.seat,
        &mut machine.machine.work,
        key,
    )
}

// Tidies the tree behind the coming of the pages of the key's way, and then takes the value of the key away.
fn del_tidied<D: Stages>(machine: &mut PagedMachine<D>, key: u64) -> Result<Option<u64>, Unserved>
    requires ready { IsReady D.story machine.old }
    requires may { MayDel key stage.Before machine.old }
    requires small { machine.old.machine.work.session.clock.clock < 2 ^ 62 }
    requires key { key < 2 ^ 64 - 1 }
    ensures works { machine.new.machine.work.session.works ≡ works_behind result }
    ensures ready { works_behind result ≡ true → IsReady D.story machine.new }
    ensures fits { SeatFits machine.new.machine }
    ensures dels { Dels D.story key stage.Before most_a_del result machine.old machine.new }
    ensures session { AreAsMany machine.old.machine machine.new.machine }
    ensures turn { works_behind result ≡ true → machine.new.machine.work.session.own ≡ machine.old.machine.work.session.own }

    ensures cause_disk_fault { HasCause (D.faults machine.old.machine.work.disk) (D.faults machine.new.machine.work.disk) (result ≡ Err disk_fault) }
{
    laws();
    if let Err(why) = tidy(machine, key) {
        return Err(why);
    }
    del_hot(machine, key)
}

// Takes the value of the key away behind the coming of the pages of its way. The tree is tidied first, where the leaf may be thin.
pub(crate) fn del_warm<D: Stages>(
    machine: &mut PagedMachine<D>,
    key: u64,
) -> Result<Option<u64>, Unserved>
    requires ready { IsReady D.story machine.old }
    requires may { MayStill key machine.old }
    requires small { machine.old.machine.work.session.clock.clock < 2 ^ 62 }
    requires key { key < 2 ^ 64 - 1 }
    ensures works { machine.new.machine.work.session.works ≡ works_behind result }
    ensures ready { works_behind result ≡ true → IsReady D.story machine.new }
    ensures fits { SeatFits machine.new.machine }
    ensures dels { Dels D.story key stage.Before most_a_del result machine.old machine.new }
    ensures session { AreAsMany machine.old.machine machine.new.machine }
    ensures turn { works_behind result ≡ true → machine.new.machine.work.session.own ≡ machine.old.machine.work.session.own }

    ensures cause_disk_fault { HasCause (D.faults machine.old.machine.work.disk) (D.faults machine.new.machine.work.disk) (result ≡ Err disk_fault) }
{
    laws();
    match del_thick(machine, key) {
        Ok(AtOnce::Done(was)) => Ok(was),
        Ok(AtOnce::MayBeThin) => del_tidied(machine, key),
        Err(Unmade::Cold(_)) => del_tidied(machine, key),
        Err(Unmade::Unserved(why)) => Err(why),
        // Nothing is put back.
        Err(Unmade::Lost) => unreachable!(),
    }
}
