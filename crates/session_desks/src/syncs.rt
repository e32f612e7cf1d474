// A sync of all logs.
ghost use Rattle.std.specs.Prelude.{◌≡◌, ◌↔◌, ◌≤◌, ◌<◌, ◌+◌, ◌^◌, ℕ, max, IsErr, IsOk, IfOk, OnOk, get_or, length, true, false};
ghost use Rattle.map_model.specs.Lists.{all};
ghost use Rattle.lean_disk.specs.Faults.{HasCause};
ghost use Rattle.session_state.specs.log_calls.Syncs.{SyncsOn};
ghost use Rattle.session_state.specs.log_calls.Wholes.{EndsInRecord};
ghost use Rattle.session_state.specs.disk_runs.MasterLaws.{raised};
ghost use Rattle.session_state.specs.Staging.{KeepsLog};
ghost use Rattle.session_state.specs.Syncs.{HasNoneBehind, HasSynced, MayFlush, synced_session};
ghost use Rattle.session_state.specs.rows_trait.Views.{state};
ghost use Rattle.session_desks.specs.Desks.{desk_of};
ghost use Rattle.session_desks.specs.Parts.{AreAsMany, FailsToFlush, FailsToSync, FlushesAll, FlushesOne, HasLogs, HasNumbersToCut, IsFlushed, IsRaised, IsSound, IsStill, IsSynced, MakesSync, MaySync, SeatFits, Works, here, logs};
ghost use Rattle.session_desks.specs.Syncs.{AreRaised, HasOpening, IsWriting, IsWritten, all_end_at, all_find_room, ends_at, finds_room_desk, greatest, next_with};

use crate::desk::Desk;
use crate::grounds::laws;
use crate::machine::Machine;
use lean_disk::{Did, Disk};
use session_state::{
    DiskFault, Heads, Master, Session, Stages, WorkerLog, clocks_low, flush_own, may_flush,
    store_synced, sync_master,
};

// The greater of two numbers.
fn greater(a: u64, b: u64) -> u64
    ensures { result ≡ max a b }
{
    if a < b { b } else { a }
}

// The greatest clock of these sessions.
fn greatest_clock(first: &Session, desks: &[Desk]) -> u64
    ensures { result ≡ greatest first.now.clock.clock desks.now }
{
    let mut found = first.clock.clock;
    for desk in desks {
        found = greater(found, desk.session.clock.clock);
    }
    found
}

// The session and its log go on from the number of a sync.
fn raise(session: &mut Session, log: &mut WorkerLog, number: u64)
    requires flushed { log.old.flushed ≡ log.old.last }
    requires rises { log.old.last ≤ number }
    ensures session { session.new ≡ synced_session session.old number }
    ensures log { log.new ≡ raised log.old number }
{
    session.synced(number);
    log.mark(number);
}

// The heads, as they are.
fn same_heads(heads: &Heads) -> Heads
    ensures { result ≡ heads.now }
{
    let mut copy = Heads::new(heads.logs());
    for log in 1..heads.logs() + 1 {
        copy.set_head(log, heads.head(log));
    }
    copy
}

// The next master of a run, with this floor.
fn next_master(master: &Master, floor: u64) -> Master
    requires sequence { master.now.sequence + 1 < 2 ^ 63 }
    ensures { result ≡ next_with master.now floor }
{
    Master {
        sequence: master.sequence + 1,
        generation: master.generation,
        floor,
        pages: master.pages,
        blocks: master.blocks,
        heads: same_heads(&master.heads),
    }
}

// Whether the logs at these desks end at the number.
fn desks_end_at(desks: &[Desk], number: u64) -> bool
    ensures { result ≡ all (ends_at number) desks.now }
{
    for desk in desks {
        if desk.log.last() != number {
            return false;
        }
    }
    true
}

// Whether this log does too: then no last number is below it.
fn end_at(log: &WorkerLog, desks: &[Desk], number: u64) -> bool
    ensures { result ≡ all_end_at number log.now desks.now }
{
    log.last() == number && desks_end_at(desks, number)
}

// Writes a master with this floor, unless all logs end there.
fn write_floor<D: Disk>(
    disk: &mut D,
    master: &mut Master,
    floor: u64,
    all_end: bool,
) -> Result<(), DiskFault>
    requires sequence { master.old.sequence + 1 < 2 ^ 63 }
    ensures same { all_end ≡ true → IsOk result × (disk.new ≡ disk.old) × (master.new ≡ master.old) }
    ensures next { all_end ≡ false → OnOk result (SyncsOn (next_with master.old floor) (D.story disk.old) (D.story disk.new) × (master.new ≡ next_with master.old floor)) }
    ensures any_moment { all_end ≡ false → IsWriting (next_with master.old floor) (D.story disk.old) (D.story disk.new) }

    ensures cause_disk_fault { HasCause (D.faults disk.old) (D.faults disk.new) (IsErr result) }
{
    if all_end {
        return Ok(());
    }
    let next = next_master(master, floor);
    let Did::Done = sync_master(disk, &next) else {
        return Err(DiskFault);
    };
    *master = next;
    Ok(())
}

// Each session at a desk and its log go on from this number.
fn raise_desks(desks: &mut Vec<Desk>, number: u64)
    requires flushed { (i : ℕ) (d : Desk) → i < length desks.old.items → (get_or desks.old.items i d).log.flushed ≡ (get_or desks.old.items i d).log.last }
    requires rises { (i : ℕ) (d : Desk) → i < length desks.old.items → (get_or desks.old.items i d).log.last ≤ number }
    ensures { AreRaised desks.old.items desks.new.items number }
{
    for at in 0..desks.len() {
        let desk = &mut desks[at];
        raise(&mut desk.session, &mut desk.log, number);
    }
}

// Whether each session at these desks may be flushed.
fn desks_may_flush(desks: &[Desk]) -> bool
    ensures { result ≡ all finds_room_desk desks.now }
{
    for desk in desks {
        if !may_flush(&desk.session, &desk.log) {
            return false;
        }
    }
    true
}

impl<D: Stages> Machine<D> {
    // Flushes the log of this session, in its turn.
    fn flush_one(&mut self, session: u32) -> Result<(), DiskFault>
        requires session { (0 < session) × (session ≤ self.old.work.session.workers) }
        requires machine { IsSound self.old }
        requires works { Works self.old }
        requires ends { EndsInRecord (state self.old.seat.view).core session (logs self.old session) }
        requires last { HasNoneBehind (state self.old.seat.view).core session (logs self.old session) }
        requires may { MayFlush (desk_of (here self.old) self.old.desks.items session).session (desk_of (here self.old) self.old.desks.items session).log }
        ensures fits { SeatFits self.new }
        ensures machine { OnOk result (IsSound self.new) }
        ensures session { AreAsMany self.old self.new }
        ensures still { OnOk result (IsStill self.old self.new) }
        ensures flushed { OnOk result (FlushesOne D.story session self.old self.new) }
        ensures keeps { KeepsLog session (logs self.old session) (D.story self.old.work.disk) (D.story self.new.work.disk) }
        ensures master { self.new.master ≡ self.old.master }
        ensures works { Works self.new ↔ (IsErr result → ⊥) }

        ensures cause_disk_fault { HasCause (D.faults self.old.work.disk) (D.faults self.new.work.disk) (IsErr result) }
    {
        session_state::every_other();
        self.turn_to(session);
        flush_own(&mut self.rows, &mut self.seat, &mut self.work)
    }

    // Flushes the log of each session, in its turn.
    fn flush_all(&mut self) -> Result<(), DiskFault>
        requires machine { IsSound self.old }
        requires works { Works self.old }
        requires logged { HasLogs self.old }
        requires may { MaySync self.old }
        ensures fits { SeatFits self.new }
        ensures machine { OnOk result (IsSound self.new) }
        ensures session { AreAsMany self.old self.new }
        ensures still { OnOk result (IsStill self.old self.new) }
        ensures flushed { OnOk result (FlushesAll D.story self.old self.new) }
        ensures failed { IsErr result → FailsToFlush D.story self.old self.new }
        ensures master { self.new.master ≡ self.old.master }
        ensures works { Works self.new ↔ (IsErr result → ⊥) }

        ensures cause_disk_fault { HasCause (D.faults self.old.work.disk) (D.faults self.new.work.disk) (IsErr result) }
    {
        laws();
        for session in 1..self.work.session.workers + 1 {
            self.flush_one(session)?;
        }
        Ok(())
    }

    // Writes a master whose floor is the greatest clock, unless each log ends there, and raises every clock, and what is flushed of every log, to it. All logs
    // are flushed.
    fn sync_flushed(&mut self) -> Result<u64, DiskFault>
        requires machine { IsSound self.old }
        requires works { Works self.old }
        requires logged { HasLogs self.old }
        requires opens { HasOpening self.old.seat.view.given }
        requires flushed { IsFlushed self.old }
        ensures fits { SeatFits self.new }
        ensures machine { OnOk result (IsSound self.new) }
        ensures session { AreAsMany self.old self.new }
        ensures synced { IfOk result (HasSynced self.old.seat.view self.new.seat.view) }
        ensures raised { IfOk result (IsRaised self.old self.new) }
        ensures numbers { IfOk result (λ _. HasNumbersToCut self.new) }
        ensures number { IfOk result (λ n. n ≡ greatest self.old.work.session.clock.clock self.old.desks.items) }
        ensures written { IfOk result (λ n. IsWritten D.story self.old.work.session.workers n (logs self.old) self.old.master self.new.master self.old.work.disk self.new.work.disk) }
        ensures failed { IsErr result → IsWriting (next_with self.old.master (greatest self.old.work.session.clock.clock self.old.desks.items)) (D.story self.old.work.disk) (D.story self.new.work.disk) }
        ensures works { Works self.new ↔ (IsErr result → ⊥) }

        ensures cause_disk_fault { HasCause (D.faults self.old.work.disk) (D.faults self.new.work.disk) (IsErr result) }
    {
        session_state::every_reached();
        session_state::every_synced();
        clocks_low(&self.rows, &self.seat);
        let number = greatest_clock(&self.work.session, &self.desks);
        let all_end = end_at(&self.work.log, &self.desks, number);
        if let Err(fault) = write_floor(&mut self.work.disk, &mut self.master, number, all_end) {
            self.work.session.works = false;
            return Err(fault);
        }
        store_synced(&mut self.rows, &mut self.seat, number);
        raise(&mut self.work.session, &mut self.work.log, number);
        raise_desks(&mut self.desks, number);
        Ok(number)
    }

    /// Flushes every log, and syncs them up to the greatest clock. The answer is that number. Each session has to find room behind the flush for what it has
    /// still to put back, and finds it behind a further one too.
    #[inline(never)]
    pub fn sync_all(&mut self) -> Result<u64, DiskFault>
        requires machine { IsSound self.old }
        requires works { Works self.old }
        requires logged { HasLogs self.old }
        requires opens { HasOpening self.old.seat.view.given }
        requires may { MaySync self.old }
        ensures fits { SeatFits self.new }
        ensures machine { OnOk result (IsSound self.new) }
        ensures session { AreAsMany self.old self.new }
        ensures sessions { IfOk result (IsSynced self.old self.new) }
        ensures may { IfOk result (λ _. MaySync self.new) }
        ensures numbers { IfOk result (λ _. HasNumbersToCut self.new) }
        ensures made { IfOk result (MakesSync D.story self.old self.new) }
        ensures failed { IsErr result → FailsToSync D.story self.old self.new }
        ensures works { Works self.new ↔ (IsErr result → ⊥) }

        ensures cause_disk_fault { HasCause (D.faults self.old.work.disk) (D.faults self.new.work.disk) (IsErr result) }
    {
        laws();
        session_state::every_flush();
        self.flush_all()?;
        clocks_low(&self.rows, &self.seat);
        self.sync_flushed()
    }

    /// Whether each session may be flushed, so that all logs may be synced. It is so while no abort is half done.
    pub fn may_sync(&self) -> bool
        requires machine { IsSound self.now }
        ensures { (result ≡ true) ↔ MaySync self.now }
    {
        session_state::every_flush();
        self.all_may_flush()
    }

    // The same, by the numbers of sessions and logs.
    fn all_may_flush(&self) -> bool
        ensures { result ≡ all_find_room (here self.now) self.now.desks.items }
    {
        may_flush(&self.work.session, &self.work.log) && desks_may_flush(&self.desks)
    }
}
