// The latches of the lock rows that a session holds, around its end.
ghost use Rattle.std.specs.Prelude.{◌≡◌, ◌≤◌, ◌^◌, ℕ, true, false, length, replicate};
ghost use Rattle.map_model.specs.Lists.{Has};
ghost use Rattle.session_state.specs.rows_trait.Views.{state};
ghost use Rattle.session_state.specs.key_locks.Latching.{is_marked};
ghost use Rattle.session_state.specs.key_locks.Rows.{Sized, Spans};
ghost use Rattle.row_ends.specs.Ends.{AreAmong, AreHeld, AreMine, Gave, Latched, Latching, Missed};
ghost use Rattle.row_ends.specs.Outcomes.{IsLatched};
ghost use Rattle.session_state.specs.Holds.{Holds};

use session_state::{HeldRows, Latches, Rows, Session, WorkerLog, next_fits};

// Latches the lock rows that the session holds, as they stand, until one is found whose latch has come to its end. Whether all are latched.
fn latch_rows<R: Rows>(
    rows: &mut R,
    seat: &mut R::Seat,
    session: &Session,
    latches: &mut Latches,
) -> bool
    requires fits { R.fits rows.old seat.old }
    requires alone { (R.shape rows.old).alone ≡ true }
    requires locks { Sized (R.shape rows.old) (R.view seat.old) session.now.own session.now.frames session.now.held.count }
    requires mine { AreMine session.now.frames session.now.held.count latches.old (R.view seat.old).held }
    requires among { AreAmong latches.old session.now.held.rows }
    ensures fits { R.fits rows.new seat.new × (R.shape rows.new ≡ R.shape rows.old) }
    ensures latching { Latching session.now.frames session.now.held latches.new (R.view seat.old) (R.view seat.new) }
    ensures all { result ≡ true → (i : ℕ) → Has i session.now.held.rows → is_marked latches.new i ≡ true }
    ensures spent { result ≡ false → 2 ^ 61 ≤ length (R.view seat.new).seen }
{
    session_state::every_low();
    let held = &session.held;
    for at in 0..held.len() {
        let row = held.row(at);
        if let Err(_) = latches.latch(rows, seat, session.own, session.frames, u64::from(row)) {
            rows.versions(seat);
            return false;
        }
    }
    true
}

// Gives the latches of the lock rows that are held back.
fn unlatch_rows<R: Rows>(
    rows: &mut R,
    seat: &mut R::Seat,
    frames: u32,
    held: &HeldRows,
    latches: &mut Latches,
)
    requires fits { R.fits rows.old seat.old }
    requires alone { (R.shape rows.old).alone ≡ true }
    requires spans { Spans (R.shape rows.old) frames held.now.count }
    requires mine { AreMine frames held.now.count latches.old (R.view seat.old).held }
    requires among { AreAmong latches.old held.now.rows }
    ensures fits { R.fits rows.new seat.new × (R.shape rows.new ≡ R.shape rows.old) }
    ensures unmarked { latches.new ≡ replicate held.now.count false }
    ensures missed { Missed (length held.now.rows) (R.view seat.old) (R.view seat.new) }
{
    for at in 0..held.len() {
        let row = held.row(at);
        latches.unlatch(rows, seat, frames, u64::from(row));
    }
}

// Gives the lock rows back that the session holds, behind its end with this number.
pub(crate) fn unlock_rows<R: Rows>(
    rows: &mut R,
    seat: &mut R::Seat,
    session: &Session,
    latches: &mut Latches,
    end: u64,
)
    requires fits { R.fits rows.old seat.old }
    requires alone { (R.shape rows.old).alone ≡ true }
    requires locks { Sized (R.shape rows.old) (R.view seat.old) session.now.own session.now.frames session.now.held.count }
    requires mine { AreMine session.now.frames session.now.held.count latches.old (R.view seat.old).held }
    requires among { AreAmong latches.old session.now.held.rows }
    requires held { AreHeld session.now.own (R.view seat.old) latches.old }
    requires ended { (((state (R.view seat.old)).core.worker session.now.own).is_open ≡ false) × (end ≡ ((state (R.view seat.old)).core.worker session.now.own).«end») }
    ensures fits { R.fits rows.new seat.new × (R.shape rows.new ≡ R.shape rows.old) }
    ensures unmarked { latches.new ≡ replicate session.now.held.count false }
    ensures gave { Gave session.now.own (length session.now.held.rows) (R.view seat.old) (R.view seat.new) }
{
    let held = &session.held;
    for at in 0..held.len() {
        let row = held.row(at);
        latches.unlock(rows, seat, session.own, session.frames, u64::from(row), end);
    }
}

// Latches the lock rows that the session holds. Where a latch has come to its end none stays latched.
pub(crate) fn latch_held<R: Rows>(
    rows: &mut R,
    seat: &mut R::Seat,
    session: &Session,
    latches: &mut Latches,
    log: &WorkerLog,
) -> bool
    requires fits { R.fits rows.old seat.old }
    requires holds { Holds (R.shape rows.old) (R.view seat.old) session.now log.now }
    requires unmarked { latches.old ≡ replicate session.now.held.count false }
    ensures fits { R.fits rows.new seat.new × (R.shape rows.new ≡ R.shape rows.old) }
    ensures latched { result ≡ true → IsLatched (R.shape rows.new) (R.view seat.old) (R.view seat.new) session.now log.now latches.new }
    ensures missed { result ≡ false → Missed (length session.now.held.rows) (R.view seat.old) (R.view seat.new) × (2 ^ 61 ≤ length (R.view seat.new).seen) × (latches.new ≡ latches.old) }
{
    next_fits(rows, seat);
    if latch_rows(rows, seat, session, latches) {
        return true;
    }
    unlatch_rows(rows, seat, session.frames, &session.held, latches);
    false
}
