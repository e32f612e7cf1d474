// A put of a key whose row is held alone, wherever the pages of its way are: room is made by one change of the tree after another. Tombstones of its leaf that
// nobody can need go first.
ghost use Rattle.std.specs.Prelude.{◌≡◌, ◌<◌, ◌-◌, ◌^◌, ◌*◌, IsErrAnd, IfOk, Err, None, Some, true};
ghost use Rattle.page_model.specs.Limits.{tombstone};
ghost use Rattle.paged_desks.specs.engine_trait.Serving.{disk_fault};
ghost use Rattle.lean_disk.specs.Faults.{HasCause};
ghost use Rattle.paged_desks.specs.Calls.{IsAside, works_behind};
ghost use Rattle.paged_desks.specs.Machines.{IsReady, pages, view_of};
ghost use Rattle.paged_desks.specs.paged_rows.Paged.{IsWarm};
ghost use Rattle.row_room.specs.row_changes.Puts.{works_behind as works_after_try};
ghost use Rattle.row_room.specs.row_changes.Ways.{IsCut};
ghost use Rattle.row_room.specs.row_changes.declared.ways.Unmade.{Unmade};
ghost use Rattle.row_room.specs.Outcomes.{Steps};
ghost use Rattle.row_room.specs.row_growth.Rooms.{IsPlaced};
ghost use Rattle.paged_desks.specs.session_desks.Parts.{AreAsMany, SeatFits};
ghost use Rattle.paged_desks.specs.session_state.Holds.{IsSameSession};
ghost use Rattle.paged_calls.specs.Changes.{MayStill};
ghost use Rattle.paged_calls.specs.Growths.{MayPut};
ghost use Rattle.paged_calls.specs.Rounds.{GoesOnWarm, IsWanted, Rounds, as_stepped, most_a_put, most_a_round, most_behind_wish, most_rounds, round_of};

use crate::laws::laws;
use paged_desks::{PagedMachine, Stages, Unserved, unserved_of};
use row_room::{Placed, Stepped, Unmade, clock_refusal, put_step};

/// What one round of a put came to.
#[derive(Clone, Copy)]
pub(crate) enum Round {
    /// The key has its value now; this is the one that it had.
    Done(Option<u64>),
    /// The tree was changed on the way to room for the key.
    Grown,
}

// Tries to put, and where the leaf has no room, makes one change of the tree, into the free page that was brought into a frame.
fn step<D: Stages>(
    machine: &mut PagedMachine<D>,
    key: u64,
    value: u64,
    placed: Option<Placed>,
) -> Result<Stepped, Unmade>
    requires ready { IsReady D.story machine.old }
    requires may { MayPut key machine.old }
    requires small { machine.old.machine.work.session.clock.clock < 2 ^ 62 }
    requires key { key < 2 ^ 64 - 1 }
    requires value { value < tombstone }
    requires placed { IsPlaced (view_of machine.old) placed }
    ensures works { machine.new.machine.work.session.works ≡ works_after_try result }
    ensures ready { works_after_try result ≡ true → IsReady D.story machine.new }
    ensures fits { SeatFits machine.new.machine }
    ensures steps { Steps result placed (view_of machine.old) (view_of machine.new) key value machine.old.machine.work.session machine.new.machine.work.session machine.old.machine.work.log machine.new.machine.work.log (D.story machine.old.machine.work.disk) (D.story machine.new.machine.work.disk) (machine.new.machine.work ≡ machine.old.machine.work) }
    ensures aside { IsAside machine.old machine.new }
    ensures session { IsSameSession machine.old.machine.work.session machine.new.machine.work.session }
    ensures is_half_aborted { machine.new.machine.work.session.works ≡ true → machine.new.machine.work.session.is_half_aborted ≡ machine.old.machine.work.session.is_half_aborted }

    ensures cause_cold { IsWarm (pages machine.old) key 0 → IsErrAnd result IsCut → ⊥ }
    ensures cause_disk_fault { HasCause (D.faults machine.old.machine.work.disk) (D.faults machine.new.machine.work.disk) (result ≡ Err (Unmade.Unserved disk_fault)) }
{
    laws();
    put_step(
        &mut machine.machine.rows,
        &mut machine.machine.seat,
        &mut machine.machine.work,
        key,
        value,
        placed,
    )
}

// The same, where each page of the key's way is hot.
fn step_hot<D: Stages>(
    machine: &mut PagedMachine<D>,
    key: u64,
    value: u64,
    placed: Option<Placed>,
) -> Result<Stepped, Unserved>
    requires ready { IsReady D.story machine.old }
    requires may { MayPut key machine.old }
    requires small { machine.old.machine.work.session.clock.clock < 2 ^ 62 }
    requires key { key < 2 ^ 64 - 1 }
    requires value { value < tombstone }
    requires placed { IsPlaced (view_of machine.old) placed }
    requires warm { IsWarm (pages machine.old) key 0 }
    ensures works { machine.new.machine.work.session.works ≡ works_after_try (as_stepped result) }
    ensures ready { works_after_try (as_stepped result) ≡ true → IsReady D.story machine.new }
    ensures fits { SeatFits machine.new.machine }
    ensures steps { Steps (as_stepped result) placed (view_of machine.old) (view_of machine.new) key value machine.old.machine.work.session machine.new.machine.work.session machine.old.machine.work.log machine.new.machine.work.log (D.story machine.old.machine.work.disk) (D.story machine.new.machine.work.disk) (machine.new.machine.work ≡ machine.old.machine.work) }
    ensures aside { IsAside machine.old machine.new }
    ensures session { IsSameSession machine.old.machine.work.session machine.new.machine.work.session }
    ensures is_half_aborted { machine.new.machine.work.session.works ≡ true → machine.new.machine.work.session.is_half_aborted ≡ machine.old.machine.work.session.is_half_aborted }

    ensures cause_disk_fault { HasCause (D.faults machine.old.machine.work.disk) (D.faults machine.new.machine.work.disk) (as_stepped result ≡ Err (Unmade.Unserved disk_fault)) }
{
    match step(machine, key, value, placed) {
        Ok(stepped) => Ok(stepped),
        Err(unmade) => Err(row_room::unserved_of(unmade)),
    }
}

// The free page that the next change of the tree takes comes into a frame, and then that is made.
fn round_into<D: Stages>(
    machine: &mut PagedMachine<D>,
    key: u64,
    value: u64,
    page: u32,
) -> Result<Round, Unserved>
    requires ready { IsReady D.story machine.old }
    requires may { MayPut key machine.old }
    requires key { key < 2 ^ 64 - 1 }
    requires value { value < tombstone }
    requires warm { IsWarm (pages machine.old) key 0 }
    requires wanted { IsWanted key page machine.old }
    ensures works { machine.new.machine.work.session.works ≡ works_behind result }
    ensures ready { works_behind result ≡ true → IsReady D.story machine.new }
    ensures fits { SeatFits machine.new.machine }
    ensures rounds { Rounds D.story key value most_behind_wish result machine.old machine.new }
    ensures session { AreAsMany machine.old.machine machine.new.machine }
    ensures turn { works_behind result ≡ true → machine.new.machine.work.session.own ≡ machine.old.machine.work.session.own }

    ensures cause_disk_fault { HasCause (D.faults machine.old.machine.work.disk) (D.faults machine.new.machine.work.disk) (result ≡ Err disk_fault) }
{
    laws();
    let frame = match machine.frame_for(key, page) {
        Ok(frame) => frame,
        Err(why) => return Err(unserved_of(why)),
    };
    // A sync may have raised the clock to its end.
    if let Some(why) = clock_refusal(&machine.machine.work.session) {
        return Err(Unserved::Refused(why));
    }
    match step_hot(machine, key, value, Some(Placed { page, frame })) {
        Err(why) => Err(why),
        Ok(Stepped::Done(before)) => Ok(Round::Done(before)),
        Ok(Stepped::Grown) => Ok(Round::Grown),
        // The page is the least free one still; and where a sync has let tombstones go meanwhile, these went.
        Ok(Stepped::Needs { .. }) => unreachable!(),
    }
}

// One round, where each page of the key's way is hot.
fn one_round<D: Stages>(
    machine: &mut PagedMachine<D>,
    key: u64,
    value: u64,
) -> Result<Round, Unserved>
    requires ready { IsReady D.story machine.old }
    requires may { MayPut key machine.old }
    requires small { machine.old.machine.work.session.clock.clock < 2 ^ 62 }
    requires key { key < 2 ^ 64 - 1 }
    requires value { value < tombstone }
    requires warm { IsWarm (pages machine.old) key 0 }
    ensures works { machine.new.machine.work.session.works ≡ works_behind result }
    ensures ready { works_behind result ≡ true → IsReady D.story machine.new }
    ensures fits { SeatFits machine.new.machine }
    ensures rounds { Rounds D.story key value most_a_round result machine.old machine.new }
    ensures session { AreAsMany machine.old.machine machine.new.machine }
    ensures turn { works_behind result ≡ true → machine.new.machine.work.session.own ≡ machine.old.machine.work.session.own }

    ensures cause_disk_fault { HasCause (D.faults machine.old.machine.work.disk) (D.faults machine.new.machine.work.disk) (result ≡ Err disk_fault) }
{
    laws();
    match step_hot(machine, key, value, None) {
        Err(why) => Err(why),
        Ok(Stepped::Done(before)) => Ok(Round::Done(before)),
        Ok(Stepped::Grown) => Ok(Round::Grown),
        Ok(Stepped::Needs { page }) => round_into(machine, key, value, page),
    }
}

// Puts, round by round, where each page of the key's way is hot.
fn put_hot<D: Stages>(
    machine: &mut PagedMachine<D>,
    key: u64,
    value: u64,
) -> Result<Option<u64>, Unserved>
    requires ready { IsReady D.story machine.old }
    requires may { MayPut key machine.old }
    requires small { machine.old.machine.work.session.clock.clock < 2 ^ 62 }
    requires key { key < 2 ^ 64 - 1 }
    requires value { value < tombstone }
    requires warm { IsWarm (pages machine.old) key 0 }
    ensures works { machine.new.machine.work.session.works ≡ works_behind result }
    ensures ready { works_behind result ≡ true → IsReady D.story machine.new }
    ensures fits { SeatFits machine.new.machine }
    ensures rounds { Rounds D.story key value (most_rounds * most_a_round) (round_of result) machine.old machine.new }
    ensures session { AreAsMany machine.old.machine machine.new.machine }
    ensures turn { works_behind result ≡ true → machine.new.machine.work.session.own ≡ machine.old.machine.work.session.own }

    ensures cause_disk_fault { HasCause (D.faults machine.old.machine.work.disk) (D.faults machine.new.machine.work.disk) (result ≡ Err disk_fault) }
{
    laws();
    'room: loop {
        match one_round(machine, key, value) {
            Ok(Round::Done(before)) => return Ok(before),
            Ok(Round::Grown) => {}
            Err(why) => return Err(why),
        }
    }
}

// Puts behind the coming of the pages of the key's way.
pub(crate) fn put_warm<D: Stages>(
    machine: &mut PagedMachine<D>,
    key: u64,
    value: u64,
) -> Result<Option<u64>, Unserved>
    requires ready { IsReady D.story machine.old }
    requires may { MayStill key machine.old }
    requires key { key < 2 ^ 64 - 1 }
    requires value { value < tombstone }
    ensures works { machine.new.machine.work.session.works ≡ works_behind result }
    ensures ready { works_behind result ≡ true → IsReady D.story machine.new }
    ensures fits { SeatFits machine.new.machine }
    ensures rounds { Rounds D.story key value most_a_put (round_of result) machine.old machine.new }
    ensures session { AreAsMany machine.old.machine machine.new.machine }
    ensures turn { works_behind result ≡ true → machine.new.machine.work.session.own ≡ machine.old.machine.work.session.own }

    ensures cause_disk_fault { HasCause (D.faults machine.old.machine.work.disk) (D.faults machine.new.machine.work.disk) (result ≡ Err disk_fault) }
{
    laws();
    if let Err(why) = machine.warm(key) {
        return Err(unserved_of(why));
    }
    // A sync may have raised the clock to its end.
    if let Some(why) = clock_refusal(&machine.machine.work.session) {
        return Err(Unserved::Refused(why));
    }
    put_hot(machine, key, value)
}
