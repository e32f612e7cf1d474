// What a session asks of itself before a begin, an end, or any call within a transaction.
ghost use Rattle.std.specs.Prelude.{None, ◌≡◌};
ghost use Rattle.session_state.specs.engine_trait.Refusals.{log_refusal};
ghost use Rattle.row_ends.specs.Tests.{abort_test, begin_test, call_test, is_going};

use map_model::Refusal;
use session_state::{Session, Unanswered, Unserved, WorkerLog};

// Where the clock of a session ends: no number is drawn from there on.
const CLOCK_END: u64 = 1 << 62;

/// Why a call that takes numbers is refused by its log or its clock.
pub fn log_refusal(clock: u64, log: &WorkerLog) -> Option<Refusal>
    ensures { result ≡ log_refusal clock log.now None }
{
    let used = log.used();
    let limit = log.limit();
    if limit <= used {
        return Some(Refusal::LogFull { used, limit });
    }
    if CLOCK_END <= clock {
        return Some(Refusal::ClockSpent);
    }
    None
}

/// Why a begin is refused, if it is.
pub fn begin_refusal(session: &Session, log: &WorkerLog) -> Option<Unserved>
    ensures { result ≡ begin_test session.now log.now }
{
    if !session.works {
        return Some(Unserved::Unanswered(Unanswered::Broken));
    }
    if session.is_open {
        return Some(Unserved::Refused(Refusal::InTransaction));
    }
    match log_refusal(session.clock.clock, log) {
        Some(why) => Some(Unserved::Refused(why)),
        None => None,
    }
}

// Whether a transaction is open, and its abort is not half done.
fn is_going(session: &Session) -> bool
    ensures { result ≡ is_going session.now }
{
    !session.is_half_aborted && session.is_open
}

/// Why a call within a transaction is refused before it is begun.
pub fn call_refusal(session: &Session) -> Option<Unserved>
    ensures { result ≡ call_test session.now }
{
    if !session.works {
        return Some(Unserved::Unanswered(Unanswered::Broken));
    }
    if !is_going(session) {
        return Some(Unserved::Refused(Refusal::NoTransaction));
    }
    None
}

/// Why an abort is refused, which may go on.
pub fn abort_refusal(session: &Session) -> Option<Unserved>
    ensures { result ≡ abort_test session.now }
{
    if !session.works {
        return Some(Unserved::Unanswered(Unanswered::Broken));
    }
    if !session.is_open {
        return Some(Unserved::Refused(Refusal::NoTransaction));
    }
    None
}
