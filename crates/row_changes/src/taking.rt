// The taking of a lock row.
ghost use Rattle.std.specs.Prelude.{◌≡◌, ◌<◌, ◌%◌, true, IfErr, OnOk};
ghost use Rattle.session_state.specs.core_state.Needs.{is_reader};
ghost use Rattle.session_state.specs.key_locks.declared.mode.Mode.TheVariants as mode;
ghost use Rattle.map_model.specs.declared.call.Refusal.{Refusal};
ghost use Rattle.session_state.specs.Holds.{Holds};
ghost use Rattle.row_changes.specs.Takes.{IsSpent, NotTaken, Takes};

use map_model::Refusal;
use session_state::{
    Mode, Refusal as Unlocked, RowSpent, Rows, Session, WorkerLog, lock_again, lock_row, row_of,
};

// Takes a lock row, whether the session has it already or not, and meets what the row tells.
fn take_first<R: Rows>(
    rows: &mut R,
    seat: &mut R::Seat,
    session: &mut Session,
    log: &WorkerLog,
    row: u32,
    mode: Mode,
) -> Result<(), Refusal>
    requires fits { R.fits rows.old seat.old }
    requires holds { Holds (R.shape rows.old) (R.view seat.old) session.old log.now }
    requires open_is { session.old.is_open ≡ true }
    requires row { row < session.old.held.count }
    ensures fits { R.fits rows.new seat.new × (R.shape rows.new ≡ R.shape rows.old) }
    ensures holds { Holds (R.shape rows.new) (R.view seat.new) session.new log.now }
    ensures taken { OnOk result (Takes (R.view seat.old) (R.view seat.new) session.old session.new row mode) }
    ensures not_taken { IfErr result (λ why. NotTaken why (R.view seat.old) (R.view seat.new) session.old.own row mode × (session.new ≡ session.old)) }
{
    session_state::every_low();
    let count = session.held.count();
    match lock_row(rows, seat, session.own, session.frames, count, row, mode) {
        Ok(stamp) => {
            session.clock.touch(session.own, stamp.number, stamp.log);
            session.clock.raise(stamp.readers);
            session.held.take(row);
            session.held.few();
            Ok(())
        }
        Err(Unlocked::RowSpent { row: _ }) => {
            rows.versions(seat);
            Err(Refusal::RowSpent)
        }
        Err(Unlocked::Conflict { holder }) => Err(Refusal::Conflict { holder }),
        // Nobody else steps.
        Err(Unlocked::Moved(_)) => unreachable!(),
        Err(Unlocked::Latched(_)) => unreachable!(),
    }
}

// Takes a lock row shared that the session has, where it is the only one, so that the row tells it nothing new.
#[inline(always)]
fn take_again<R: Rows>(
    rows: &mut R,
    seat: &mut R::Seat,
    session: &Session,
    log: &WorkerLog,
    row: u32,
) -> Result<(), Refusal>
    requires fits { R.fits rows.old seat.old }
    requires holds { Holds (R.shape rows.old) (R.view seat.old) session.now log.now }
    requires open_is { session.now.is_open ≡ true }
    requires only { session.now.workers ≡ 1 }
    requires row { row < session.now.held.count }
    requires has { is_reader row session.now.held.rows ≡ true }
    ensures fits { R.fits rows.new seat.new × (R.shape rows.new ≡ R.shape rows.old) }
    ensures holds { Holds (R.shape rows.new) (R.view seat.new) session.now log.now }
    ensures taken { OnOk result (Takes (R.view seat.old) (R.view seat.new) session.now session.now row mode.Shared) }
    ensures spent { IfErr result (λ why. (why ≡ Refusal.RowSpent) × IsSpent (R.view seat.old) (R.view seat.new)) }
{
    session_state::every_low();
    let count = session.held.count();
    match lock_again(
        rows,
        seat,
        session.own,
        session.frames,
        count,
        row,
        Mode::Shared,
    ) {
        Ok(()) => Ok(()),
        Err(RowSpent) => {
            rows.versions(seat);
            Err(Refusal::RowSpent)
        }
    }
}

/// Takes the lock row of a key for the session, which meets what the row tells: its last end, and those of its readers. It is refused where
/// another session stands in the way, or the row is spent.
#[inline(always)]
pub fn take_row<R: Rows>(
    rows: &mut R,
    seat: &mut R::Seat,
    session: &mut Session,
    log: &WorkerLog,
    key: u64,
    mode: Mode,
) -> Result<(), Refusal>
    requires fits { R.fits rows.old seat.old }
    requires holds { Holds (R.shape rows.old) (R.view seat.old) session.old log.now }
    requires open_is { session.old.is_open ≡ true }
    ensures fits { R.fits rows.new seat.new × (R.shape rows.new ≡ R.shape rows.old) }
    ensures holds { Holds (R.shape rows.new) (R.view seat.new) session.new log.now }
    ensures taken { OnOk result (Takes (R.view seat.old) (R.view seat.new) session.old session.new (key % session.old.held.count) mode) }
    ensures not_taken { IfErr result (λ why. NotTaken why (R.view seat.old) (R.view seat.new) session.old.own (key % session.old.held.count) mode × (session.new ≡ session.old)) }
    // One session alone meets no other.
    ensures only { session.old.workers ≡ 1 → IfErr result (λ why. why ≡ Refusal.RowSpent) }
{
    let row = row_of(key, session.held.count());
    match mode {
        Mode::Shared if session.workers == 1 && session.held.has(row) => {
            take_again(rows, seat, session, log, row)
        }
        _ => take_first(rows, seat, session, log, row, mode),
    }
}
