// The engine.
ghost use Rattle.std.specs.Prelude.{◌≡◌, ◌≤◌, ℕ, List, IfErr, IfOk, MatchResult};
ghost use Rattle.page_model.specs.Limits.{most_sessions};
ghost use Rattle.lean_disk.specs.Faults.{HasCause};
ghost use Rattle.map_model.specs.Journals.{Name};
ghost use Rattle.paged_scans.specs.core_calls.Fronts.{Done, front};
ghost use Rattle.paged_scans.specs.core_state.Openings.{Opening};
ghost use Rattle.engine_front.specs.Fronts.{events_in};
ghost use Rattle.recovery.specs.Opened.{IsRefusal, IsUntouched};
ghost use Rattle.recovery.specs.declared.opening.Unrecovered.{Unrecovered};
ghost use Rattle.paged_engine.specs.Openings.{OpenKeeps, Shows};
ghost use Rattle.buffered_engine.specs.Openings.{HasOpened};
ghost use Rattle.buffered_engine.specs.States.{InRun};

use engine_front::Front;
use engine_front::calls::Next;
use group_commit::{LOGS, Unripe};
use lean_disk::Disk;
use paged_engine::{Size, Unopened};
use paged_scans::{Machine, PagedMachine, Scan, Work};
use recovery::Unrecovered;
use std::alloc::Global;
use std::marker::Model;

/// An engine of several sessions over the pages of a disk, which it owns: what works on rows and disk, the ends that wait, what may be asked next, and the scan
/// of the newest line that was one; and where it is known that none of these ends is ripe, the numbers up to which the logs were flushed then.
pub struct Engine<D: Disk> {
    pub(crate) machine: PagedMachine<D>,
    pub(crate) unripe: Unripe,
    pub(crate) next: Next,
    pub(crate) scan: Scan,
    pub(crate) calm: Option<[u64; LOGS]>,
}

impl<D: Disk> Model for Engine<D> {
    ghost use Rattle.buffered_engine.specs.Inside.Calm.{IsCalm};
    ghost use Rattle.buffered_engine.specs.Inside.Parts.{IsEngine, state_by};
    ghost use Rattle.buffered_engine.specs.States.{State};

    ghost Value = { State D };

    ghost view = { λ e. state_by e.machine e.next e.scan e.unripe };

    ghost invariant = { λ e. IsEngine D.story e.machine e.next e.scan e.unripe × IsCalm e.calm e.machine.machine.work.session.workers e.unripe };
}

/// An engine, and what its first line tells of the opening.
pub struct Opened<D: Disk> {
    pub engine: Engine<D>,
    pub generation: u64,
    pub winners: u64,
    pub undone: u64,
}

/// An engine that was closed: its disk, and what its seat has seen.
pub struct Closed<D> {
    pub disk: D,
    pub front: Front,
}

// The disk of a machine, and its seat. What it has in memory is let go.
fn take_apart<D>(machine: PagedMachine<D>) -> Closed<D>
    ensures disk { result.disk ≡ machine.machine.work.disk }
    ensures front { result.front.view ≡ machine.machine.seat.view }
{
    let PagedMachine { machine, pager: _ } = machine;
    let Machine {
        rows: _,
        seat,
        work,
        desks: _,
        latches: _,
        master: _,
    } = machine;
    let Work {
        disk,
        log: _,
        session: _,
        staged: _,
    } = work;
    Closed { disk, front: seat }
}

pub(crate) fn disk_of<D>(machine: PagedMachine<D>) -> D
    ensures { result ≡ machine.machine.work.disk }
{
    let Closed { disk, front: _ } = take_apart(machine);
    disk
}

impl<D: Disk> Engine<D> {
    /// Opens a disk.
    pub fn open(alloc: Global, disk: D, size: Size) -> Result<Opened<D>, Unopened<D>>
        requires frames { (32 ≤ size.frames) × (size.frames ≤ 4096) }
        requires rows { (1 ≤ size.rows) × (size.rows ≤ 65536) }
        requires group { 1 ≤ size.group }
        requires sessions { size.sessions ≤ most_sessions }
        ensures opened { IfOk result (λ o. HasOpened size (D.story disk) (D.story o.engine.disk) o.engine o.generation o.winners o.undone) }
        ensures keeps { MatchResult result (λ o. OpenKeeps size.sessions (D.story disk) (D.story o.engine.disk)) (λ u. OpenKeeps size.sessions (D.story disk) (D.story u.disk)) }

        // A disk that is refused is left as it was.
        ensures left { IfErr result (λ u. IsRefusal u.reason → (a : ℕ) → IsUntouched ((D.story disk).area a) ((D.story u.disk).area a)) }
        ensures shown { IfErr result (λ u. Shows size.sessions (D.story disk) u.reason) }
        ensures cause_disk_fault { IfErr result (λ u. HasCause (D.faults disk) (D.faults u.disk) (u.reason ≡ Unrecovered.DiskFault)) }
        ensures no_fault { IfOk result (λ o. D.faults o.engine.disk ≡ D.faults disk) }
    {
        group_commit::every_start();
        let opened = match paged_engine::open(alloc, disk, size) {
            Ok(opened) => opened,
            Err(unopened) => return Err(unopened),
        };
        let paged_engine::Opened {
            machine,
            winners,
            undone,
        } = opened;
        let Ok(unripe) = Unripe::new(alloc, machine.machine.work.session.workers) else {
            return Err(Unopened {
                disk: disk_of(machine),
                reason: Unrecovered::Memory,
            });
        };
        let generation = machine.machine.master.generation;
        Ok(Opened {
            engine: Engine {
                machine,
                unripe,
                next: Next::Line,
                scan: Scan::new(0, 0),
                calm: None,
            },
            generation,
            winners,
            undone,
        })
    }

    /// Its disk, and what it has done: the events of the outcomes, whatever run it stands in. It makes none; what it has in memory is let go.
    pub fn close(self) -> Closed<D>
        ensures disk { result.disk ≡ self.disk }
        ensures front { result.front.view ≡ self.view }
        ensures events { (g : Opening) (xs : List Done) (names : List Name) → InRun self g xs names → events_in result.front.view ≡ front xs }
    {
        let Engine {
            machine,
            unripe: _,
            next: _,
            scan: _,
            calm: _,
        } = self;
        take_apart(machine)
    }
}
