// The end of a session's transaction, in rows and in memory.
ghost use Rattle.std.specs.Prelude.{◌≡◌, ◌+◌, length, replicate, false};
ghost use Rattle.row_ends.specs.Ends.{Ended as HasEnded, MayEnd, ended_session};

use crate::latching::unlock_rows;
use session_state::{Latches, Names, Rows, Session};

/// The number of the transaction, that of its end, and up to which number all logs are to be flushed for it, 0 where it owes the others nothing.
#[derive(Clone, Copy, Debug, PartialEq, Eq)]
pub struct Ended {
    pub number: u64,
    pub at: u64,
    pub need: u64,
}

// The event of an end of the session, by a commit or an abort, where all logs are found flushed up to this number.
#[derive(Drop)]
struct Ends {
    own: u32,
    commit: bool,
    floor: u64,
}

impl Names for Ends {
    ghost use Rattle.std.specs.Prelude.{[], ◌∷◌};
    ghost use Rattle.session_state.specs.row_words.declared.event.Event.TheVariants.{End};

    ghost names = { λ s _. End s.own s.commit s.floor ∷ [] };
}

// Stores the number of the session's end, and gives its rows back.
pub(crate) fn end_rows<R: Rows>(
    rows: &mut R,
    seat: &mut R::Seat,
    session: &Session,
    latches: &mut Latches,
    commit: bool,
    floor: u64,
    number: u64,
)
    requires fits { R.fits rows.old seat.old }
    requires may_end { MayEnd (R.shape rows.old) (R.view seat.old) session.now commit floor latches.old }
    requires number { number ≡ session.now.clock.clock + 1 }
    ensures fits { R.fits rows.new seat.new × (R.shape rows.new ≡ R.shape rows.old) }
    ensures unmarked { latches.new ≡ replicate session.now.held.count false }
    ensures ended { HasEnded session.now.own (length session.now.held.rows) (R.view seat.old) commit floor (R.view seat.new) }
{
    session_state::every_turn();
    let own = session.own;
    rows.store_control(seat, own, 1, number, &Ends { own, commit, floor });
    unlock_rows(rows, seat, session, latches, number);
}

// The transaction of a session has ended, by this number.
pub(crate) fn close(session: &mut Session, number: u64)
    ensures { session.new ≡ ended_session session.old number }
{
    session.is_open = false;
    session.clock.clock = number;
    session.end = number;
    session.first = None;
    session.undo.clear();
    session.is_half_aborted = false;
    session.held.clear();
}
