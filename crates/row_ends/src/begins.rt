// A begin, behind its tests.
ghost use Rattle.std.specs.Prelude.{◌≡◌, ◌≤◌, ◌<◌, ◌^◌, true, min};
ghost use Rattle.page_model.specs.Limits.{most_sessions};
ghost use Rattle.row_ends.specs.Begins.{Begins, MayBegin, begun_session};
ghost use Rattle.row_ends.specs.Flushed.{Looked, flushed_to};
ghost use Rattle.session_state.specs.rows_trait.Views.{state};
ghost use Rattle.session_state.specs.Holds.{Holds, IsSameSession};
ghost use Rattle.session_state.specs.Others.{Steps};

use session_state::{Names, Nothing, Rows, Session, WorkerLog};

// The event of a begin by the session, where other logs are flushed up to `least` and the last one up to the number that is loaded.
#[derive(Drop)]
struct Beginning {
    own: u32,
    least: u64,
}

impl Names for Beginning {
    ghost use Rattle.std.specs.Prelude.{[], ◌∷◌, min};
    ghost use Rattle.session_state.specs.row_words.declared.event.Event.TheVariants.{Begin};

    ghost names = { λ s n. Begin s.own (min s.least n) ∷ [] };
}

/// The least number up to which the first logs, so many, are flushed; the greatest number there is, where they are none.
pub fn least_flushed<R: Rows>(rows: &mut R, seat: &mut R::Seat, count: u32) -> u64
    requires fits { R.fits rows.old seat.old }
    requires count { count ≤ (R.shape rows.old).sizes.workers }
    requires few { count ≤ most_sessions }
    ensures fits { R.fits rows.new seat.new × (R.shape rows.new ≡ R.shape rows.old) }
    ensures seen { (R.shape rows.old).alone ≡ true → Looked (R.view seat.old) (R.view seat.new) }
    ensures least { (R.shape rows.old).alone ≡ true → result ≡ flushed_to (state (R.view seat.old)).core count }
{
    let mut least = u64::MAX;
    for log in 0..count {
        let flushed = rows.load_control(seat, log + 1, 0, &Nothing);
        least = lesser(least, flushed);
    }
    least
}

// The lesser of two numbers.
fn lesser(a: u64, b: u64) -> u64
    ensures { result ≡ min a b }
{
    if a < b { a } else { b }
}

// A transaction begins, with all logs flushed up to this number.
fn begun(session: &mut Session, floor: u64)
    requires room { session.old.txn < 2 ^ 63 }
    ensures { session.new ≡ begun_session session.old floor }
{
    session.is_open = true;
    session.clock.begin(floor);
    session.txn += 1;
    session.first = None;
    session.undo.clear();
    session.is_half_aborted = false;
}

/// What a begin does behind its tests: the number up to which each log is flushed is loaded, and the load of the last one is the begin. The answer is the transaction's
/// number.
pub fn begin_tested<R: Rows>(
    rows: &mut R,
    seat: &mut R::Seat,
    session: &mut Session,
    log: &WorkerLog,
) -> u64
    requires fits { R.fits rows.old seat.old }
    requires holds { Holds (R.shape rows.old) (R.view seat.old) session.old log.now }
    requires may { MayBegin session.old log.now }
    ensures fits { R.fits rows.new seat.new × (R.shape rows.new ≡ R.shape rows.old) }
    ensures holds { Holds (R.shape rows.new) (R.view seat.new) session.new log.now }
    ensures steps { Steps session.old.own (R.view seat.old) (R.view seat.new) }
    ensures begins { Begins (R.view seat.old) (R.view seat.new) session.old session.new result }
{
    session_state::every_begin();
    let own = session.own;
    let workers = session.workers;
    let least = least_flushed(rows, seat, workers - 1);
    let last = rows.load_control(seat, workers, 0, &Beginning { own, least });
    begun(session, lesser(least, last));
    session.txn
}
