// What a session has beside the rows, while it has not the turn; and how the turn goes.
ghost use Rattle.std.specs.Prelude.{◌≡◌, ◌≤◌, ◌<◌};
ghost use Rattle.session_desks.specs.Desks.{AreSeated, Turned};
ghost use Rattle.session_desks.specs.Parts.{in_store};

use session_state::{Session, Work, WorkerLog};
use std::mem::swap;

/// A session and its log.
#[derive(Drop)]
pub struct Desk {
    pub session: Session,
    pub log: WorkerLog,
}

// The session in the store and the one at this desk change places. Which pages are free is known to the one in the store.
fn change_places<D>(work: &mut Work<D>, desk: &mut Desk)
    ensures session { work.new.session ≡ record desk.old.session { free = work.old.session.free } }
    ensures log { work.new.log ≡ desk.old.log }
    ensures desk { desk.new ≡ record { session = record work.old.session { free = desk.old.session.free }; log = work.old.log } }
    ensures disk { work.new.disk ≡ work.old.disk }
{
    swap(&mut work.session, &mut desk.session);
    swap(&mut work.log, &mut desk.log);
    swap(&mut work.session.free, &mut desk.session.free);
}

// Session 1 comes into the store from the desk at which it stood in.
fn to_first<D>(work: &mut Work<D>, desks: &mut Vec<Desk>)
    requires seated { AreSeated (in_store work.old) desks.old.items }
    requires away { work.old.session.own ≡ 1 → ⊥ }
    ensures turned { Turned 1 (in_store work.old) (in_store work.new) desks.old.items desks.new.items }
    ensures disk { work.new.disk ≡ work.old.disk }
{
    let place = work.session.own as usize - 2;
    change_places(work, &mut desks[place]);
}

// A session comes into the store in the place of session 1.
fn from_first<D>(work: &mut Work<D>, desks: &mut Vec<Desk>, session: u32)
    requires session { (0 < session) × (session ≤ work.old.session.workers) }
    requires seated { AreSeated (in_store work.old) desks.old.items }
    requires first { work.old.session.own ≡ 1 }
    requires further { session ≡ 1 → ⊥ }
    ensures turned { Turned session (in_store work.old) (in_store work.new) desks.old.items desks.new.items }
    ensures disk { work.new.disk ≡ work.old.disk }
{
    let place = session as usize - 2;
    change_places(work, &mut desks[place]);
}

// The turn goes to another session.
#[inline(never)]
fn take_turn<D>(work: &mut Work<D>, desks: &mut Vec<Desk>, session: u32)
    requires session { (0 < session) × (session ≤ work.old.session.workers) }
    requires seated { AreSeated (in_store work.old) desks.old.items }
    requires other { work.old.session.own ≡ session → ⊥ }
    ensures turned { Turned session (in_store work.old) (in_store work.new) desks.old.items desks.new.items }
    ensures disk { work.new.disk ≡ work.old.disk }
{
    if work.session.own == 1 {
        from_first(work, desks, session);
        return;
    }
    to_first(work, desks);
    if session == 1 {
        return;
    }
    from_first(work, desks, session);
}

/// The turn goes to this session. Session 1 stands at the desk of whoever has it.
#[inline(always)]
pub(crate) fn turn_to<D>(work: &mut Work<D>, desks: &mut Vec<Desk>, session: u32)
    requires session { (0 < session) × (session ≤ work.old.session.workers) }
    requires seated { AreSeated (in_store work.old) desks.old.items }
    ensures turned { Turned session (in_store work.old) (in_store work.new) desks.old.items desks.new.items }
    ensures disk { work.new.disk ≡ work.old.disk }
{
    if work.session.own != session {
        take_turn(work, desks, session);
    }
}
