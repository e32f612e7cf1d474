// The tidying of a del: one change of the tree by which space comes back after another, behind the coming of the neighbours that these need.
ghost use Rattle.std.specs.Prelude.{◌≡◌, ◌≤◌, ◌<◌, ◌-◌, ◌^◌, ◌*◌, ℕ, IsErrAnd, IfOk, Ok, Err, true};
ghost use Rattle.paged_desks.specs.engine_trait.Serving.{disk_fault};
ghost use Rattle.lean_disk.specs.Faults.{HasCause};
ghost use Rattle.paged_desks.specs.Calls.{IsAside, works_behind};
ghost use Rattle.paged_desks.specs.Machines.{IsReady, pages, view_of};
ghost use Rattle.paged_desks.specs.paged_rows.Paged.{IsWarm};
ghost use Rattle.row_room.specs.row_changes.Puts.{works_behind as works_after_try};
ghost use Rattle.row_room.specs.row_changes.Ways.{IsCut};
ghost use Rattle.row_room.specs.row_changes.declared.ways.Unmade.{Unmade};
ghost use Rattle.row_walks.specs.Stages.{level_of};
ghost use Rattle.row_walks.specs.Steps.{TidySteps};
ghost use Rattle.row_walks.specs.declared.steps.At.TheVariants as stage;
ghost use Rattle.row_walks.specs.declared.steps.Tidied.TheVariants as tidied;
ghost use Rattle.paged_desks.specs.row_words.Openings.{opening};
ghost use Rattle.paged_desks.specs.session_desks.Parts.{AreAsMany, SeatFits};
ghost use Rattle.paged_desks.specs.session_state.Holds.{IsSameSession};
ghost use Rattle.paged_calls.specs.Tidyings.{BringsNeighbour, GoesOn, HasPassed, IsLive, MayDel, TidiesAll, TidyRounds, WantsNeighbour, as_tidied, most_a_coming, most_a_del, most_a_neighbour, most_a_tidy_round, most_behind};

use crate::laws::laws;
use paged_desks::{PagedMachine, Stages, Unserved, unserved_of};
use row_room::{Unmade, clock_refusal};
use row_walks::{At, Tidied, tidy_step};

// Makes the change of the tree that is next from the stage on, where all below the level is passed.
fn step<D: Stages>(
    machine: &mut PagedMachine<D>,
    key: u64,
    at: At,
    level: usize,
) -> Result<Tidied, Unmade>
    requires ready { IsReady D.story machine.old }
    requires may { MayDel key at machine.old }
    requires small { machine.old.machine.work.session.clock.clock < 2 ^ 62 }
    requires key { key < 2 ^ 64 - 1 }
    requires passed { HasPassed key at level machine.old }
    ensures works { machine.new.machine.work.session.works ≡ works_after_try result }
    ensures ready { works_after_try result ≡ true → IsReady D.story machine.new }
    ensures fits { SeatFits machine.new.machine }
    ensures steps { TidySteps result key at (view_of machine.old) (view_of machine.new) machine.old.machine.work.session machine.new.machine.work.session machine.old.machine.work.log machine.new.machine.work.log (D.story machine.old.machine.work.disk) (D.story machine.new.machine.work.disk) (machine.new.machine.work ≡ machine.old.machine.work) }
    ensures higher { (page l : ℕ) → result ≡ Ok (tidied.Needs page l) → level ≤ l }
    ensures aside { IsAside machine.old machine.new }
    ensures session { IsSameSession machine.old.machine.work.session machine.new.machine.work.session }
    ensures warm { (IsErrAnd result IsCut → ⊥) → IsWarm (pages machine.old) key 0 }

    ensures cause_cold { IsWarm (pages machine.old) key 0 → IsErrAnd result IsCut → ⊥ }
    ensures cause_disk_fault { HasCause (D.faults machine.old.machine.work.disk) (D.faults machine.new.machine.work.disk) (result ≡ Err (Unmade.Unserved disk_fault)) }
{
    laws();
    tidy_step(
        &mut machine.machine.rows,
        &mut machine.machine.seat,
        &mut machine.machine.work,
        key,
        at,
        level,
    )
}

// The same, where each page of the key's way is hot.
fn step_hot<D: Stages>(
    machine: &mut PagedMachine<D>,
    key: u64,
    at: At,
    level: usize,
) -> Result<Tidied, Unserved>
    requires ready { IsReady D.story machine.old }
    requires may { MayDel key at machine.old }
    requires small { machine.old.machine.work.session.clock.clock < 2 ^ 62 }
    requires key { key < 2 ^ 64 - 1 }
    requires passed { HasPassed key at level machine.old }
    requires warm { IsWarm (pages machine.old) key 0 }
    ensures works { machine.new.machine.work.session.works ≡ works_after_try (as_tidied result) }
    ensures ready { works_after_try (as_tidied result) ≡ true → IsReady D.story machine.new }
    ensures fits { SeatFits machine.new.machine }
    ensures steps { TidySteps (as_tidied result) key at (view_of machine.old) (view_of machine.new) machine.old.machine.work.session machine.new.machine.work.session machine.old.machine.work.log machine.new.machine.work.log (D.story machine.old.machine.work.disk) (D.story machine.new.machine.work.disk) (machine.new.machine.work ≡ machine.old.machine.work) }
    ensures higher { (page l : ℕ) → result ≡ Ok (tidied.Needs page l) → level ≤ l }
    ensures aside { IsAside machine.old machine.new }
    ensures session { IsSameSession machine.old.machine.work.session machine.new.machine.work.session }

    ensures cause_disk_fault { HasCause (D.faults machine.old.machine.work.disk) (D.faults machine.new.machine.work.disk) (as_tidied result ≡ Err (Unmade.Unserved disk_fault)) }
{
    match step(machine, key, at, level) {
        Ok(tidied) => Ok(tidied),
        Err(unmade) => Err(row_room::unserved_of(unmade)),
    }
}

// The lowest level that may still be joined.
fn lowest(at: At) -> usize
    ensures { result ≡ level_of at }
{
    match at {
        At::Before | At::Over => 0,
        At::From { level } => level,
    }
}

// A neighbour, with which the page of this level is to be joined, comes into a frame.
fn bring_neighbour<D: Stages>(
    machine: &mut PagedMachine<D>,
    key: u64,
    at: At,
    page: u32,
    level: usize,
) -> Result<(), Unserved>
    requires ready { IsReady D.story machine.old }
    requires may { MayDel key at machine.old }
    requires key { key < 2 ^ 64 - 1 }
    requires warm { IsWarm (pages machine.old) key 0 }
    requires passed { HasPassed key at level machine.old }
    requires wants { WantsNeighbour key page level machine.old }
    requires live { IsLive key at machine.old }
    ensures works { machine.new.machine.work.session.works ≡ works_behind result }
    ensures ready { works_behind result ≡ true → IsReady D.story machine.new }
    ensures fits { SeatFits machine.new.machine }
    ensures brings { BringsNeighbour D.story key at level most_a_coming result machine.old machine.new }
    ensures session { AreAsMany machine.old.machine machine.new.machine }
    ensures turn { works_behind result ≡ true → machine.new.machine.work.session.own ≡ machine.old.machine.work.session.own }

    ensures cause_disk_fault { HasCause (D.faults machine.old.machine.work.disk) (D.faults machine.new.machine.work.disk) (result ≡ Err disk_fault) }
{
    laws();
    if let Err(why) = machine.beside(key, page) {
        return Err(unserved_of(why));
    }
    // A sync may have raised the clock to its end.
    match clock_refusal(&machine.machine.work.session) {
        Some(why) => Err(Unserved::Refused(why)),
        None => Ok(()),
    }
}

// One change of the tree, where this neighbour comes first, and then those of higher levels that are needed.
fn round_beside<D: Stages>(
    machine: &mut PagedMachine<D>,
    key: u64,
    at: At,
    page: u32,
    level: usize,
) -> Result<Option<At>, Unserved>
    requires ready { IsReady D.story machine.old }
    requires may { MayDel key at machine.old }
    requires key { key < 2 ^ 64 - 1 }
    requires warm { IsWarm (pages machine.old) key 0 }
    requires passed { HasPassed key at level machine.old }
    requires wants { WantsNeighbour key page level machine.old }
    requires live { IsLive key at machine.old }
    ensures works { machine.new.machine.work.session.works ≡ works_behind result }
    ensures ready { works_behind result ≡ true → IsReady D.story machine.new }
    ensures fits { SeatFits machine.new.machine }
    ensures rounds { TidyRounds D.story key at (9 * most_a_neighbour) result machine.old machine.new }
    ensures session { AreAsMany machine.old.machine machine.new.machine }
    ensures turn { works_behind result ≡ true → machine.new.machine.work.session.own ≡ machine.old.machine.work.session.own }

    ensures cause_disk_fault { HasCause (D.faults machine.old.machine.work.disk) (D.faults machine.new.machine.work.disk) (result ≡ Err disk_fault) }
{
    laws();
    let mut neighbour = page;
    let mut height = level;
    'climb: loop {
        if let Err(why) = bring_neighbour(machine, key, at, neighbour, height) {
            return Err(why);
        }
        match step_hot(machine, key, at, height) {
            Err(why) => return Err(why),
            Ok(Tidied::Clean) => return Ok(None),
            Ok(Tidied::Changed { at: next }) => return Ok(Some(next)),
            // A sync may have let tombstones go, but the levels that are passed stay so.
            Ok(Tidied::Needs { page, level }) => {
                neighbour = page;
                height = level;
            }
        }
    }
}

// One change of the tree, where each page of the key's way is hot; or none is left.
fn round<D: Stages>(machine: &mut PagedMachine<D>, key: u64, at: At) -> Result<Option<At>, Unserved>
    requires ready { IsReady D.story machine.old }
    requires may { MayDel key at machine.old }
    requires small { machine.old.machine.work.session.clock.clock < 2 ^ 62 }
    requires key { key < 2 ^ 64 - 1 }
    requires warm { IsWarm (pages machine.old) key 0 }
    requires live { IsLive key at machine.old }
    ensures works { machine.new.machine.work.session.works ≡ works_behind result }
    ensures ready { works_behind result ≡ true → IsReady D.story machine.new }
    ensures fits { SeatFits machine.new.machine }
    ensures rounds { TidyRounds D.story key at most_a_tidy_round result machine.old machine.new }
    ensures session { AreAsMany machine.old.machine machine.new.machine }
    ensures turn { works_behind result ≡ true → machine.new.machine.work.session.own ≡ machine.old.machine.work.session.own }

    ensures cause_disk_fault { HasCause (D.faults machine.old.machine.work.disk) (D.faults machine.new.machine.work.disk) (result ≡ Err disk_fault) }
{
    laws();
    match step_hot(machine, key, at, lowest(at)) {
        Err(why) => Err(why),
        Ok(Tidied::Clean) => Ok(None),
        Ok(Tidied::Changed { at: next }) => Ok(Some(next)),
        Ok(Tidied::Needs { page, level }) => round_beside(machine, key, at, page, level),
    }
}

// The first round behind the coming of the pages of the key's way.
fn round_warm<D: Stages>(machine: &mut PagedMachine<D>, key: u64) -> Result<Option<At>, Unserved>
    requires ready { IsReady D.story machine.old }
    requires may { MayDel key stage.Before machine.old }
    requires key { key < 2 ^ 64 - 1 }
    ensures works { machine.new.machine.work.session.works ≡ works_behind result }
    ensures ready { works_behind result ≡ true → IsReady D.story machine.new }
    ensures fits { SeatFits machine.new.machine }
    ensures rounds { TidyRounds D.story key stage.Before (2 * most_a_tidy_round) result machine.old machine.new }
    ensures session { AreAsMany machine.old.machine machine.new.machine }
    ensures turn { works_behind result ≡ true → machine.new.machine.work.session.own ≡ machine.old.machine.work.session.own }

    ensures cause_disk_fault { HasCause (D.faults machine.old.machine.work.disk) (D.faults machine.new.machine.work.disk) (result ≡ Err disk_fault) }
{
    laws();
    if let Err(why) = machine.warm(key) {
        return Err(unserved_of(why));
    }
    // A sync may have raised the clock to its end.
    if let Some(why) = clock_refusal(&machine.machine.work.session) {
        return Err(Unserved::Refused(why));
    }
    round(machine, key, At::Before)
}

// The first round: where the way is hot, as it mostly is, with no look at its pages but the step's own.
fn first_round<D: Stages>(machine: &mut PagedMachine<D>, key: u64) -> Result<Option<At>, Unserved>
    requires ready { IsReady D.story machine.old }
    requires may { MayDel key stage.Before machine.old }
    requires small { machine.old.machine.work.session.clock.clock < 2 ^ 62 }
    requires key { key < 2 ^ 64 - 1 }
    ensures works { machine.new.machine.work.session.works ≡ works_behind result }
    ensures ready { works_behind result ≡ true → IsReady D.story machine.new }
    ensures fits { SeatFits machine.new.machine }
    ensures rounds { TidyRounds D.story key stage.Before (2 * most_a_tidy_round) result machine.old machine.new }
    ensures session { AreAsMany machine.old.machine machine.new.machine }
    ensures turn { works_behind result ≡ true → machine.new.machine.work.session.own ≡ machine.old.machine.work.session.own }

    ensures cause_disk_fault { HasCause (D.faults machine.old.machine.work.disk) (D.faults machine.new.machine.work.disk) (result ≡ Err disk_fault) }
{
    laws();
    match step(machine, key, At::Before, 0) {
        Ok(Tidied::Clean) => Ok(None),
        Ok(Tidied::Changed { at: next }) => Ok(Some(next)),
        Ok(Tidied::Needs { page, level }) => round_beside(machine, key, At::Before, page, level),
        Err(Unmade::Cold(_)) => round_warm(machine, key),
        Err(Unmade::Unserved(why)) => Err(why),
        // Nothing is put back.
        Err(Unmade::Lost) => unreachable!(),
    }
}

// Tidies on from a stage, round by round, where each page of the key's way is hot.
fn tidy_on<D: Stages>(machine: &mut PagedMachine<D>, key: u64, from: At) -> Result<(), Unserved>
    requires ready { IsReady D.story machine.old }
    requires key { key < 2 ^ 64 - 1 }
    requires goes { GoesOn key from machine.old }
    ensures works { machine.new.machine.work.session.works ≡ works_behind result }
    ensures ready { works_behind result ≡ true → IsReady D.story machine.new }
    ensures fits { SeatFits machine.new.machine }
    ensures tidies { TidiesAll D.story key from (most_behind (opening (view_of machine.old).given).format.levels from) result machine.old machine.new }
    ensures session { AreAsMany machine.old.machine machine.new.machine }
    ensures turn { works_behind result ≡ true → machine.new.machine.work.session.own ≡ machine.old.machine.work.session.own }

    ensures cause_disk_fault { HasCause (D.faults machine.old.machine.work.disk) (D.faults machine.new.machine.work.disk) (result ≡ Err disk_fault) }
{
    laws();
    let mut at = from;
    'tidy: loop {
        match round(machine, key, at) {
            Err(why) => return Err(why),
            Ok(None) => return Ok(()),
            Ok(Some(next)) => at = next,
        }
    }
}

// Tidies, round by round, behind the coming of the pages of the key's way.
pub(crate) fn tidy<D: Stages>(machine: &mut PagedMachine<D>, key: u64) -> Result<(), Unserved>
    requires ready { IsReady D.story machine.old }
    requires may { MayDel key stage.Before machine.old }
    requires small { machine.old.machine.work.session.clock.clock < 2 ^ 62 }
    requires key { key < 2 ^ 64 - 1 }
    ensures works { machine.new.machine.work.session.works ≡ works_behind result }
    ensures ready { works_behind result ≡ true → IsReady D.story machine.new }
    ensures fits { SeatFits machine.new.machine }
    ensures tidies { TidiesAll D.story key stage.Before most_a_del result machine.old machine.new }
    ensures session { AreAsMany machine.old.machine machine.new.machine }
    ensures turn { works_behind result ≡ true → machine.new.machine.work.session.own ≡ machine.old.machine.work.session.own }

    ensures cause_disk_fault { HasCause (D.faults machine.old.machine.work.disk) (D.faults machine.new.machine.work.disk) (result ≡ Err disk_fault) }
{
    laws();
    match first_round(machine, key) {
        Err(why) => Err(why),
        Ok(None) => Ok(()),
        Ok(Some(next)) => tidy_on(machine, key, next),
    }
}
