// What a session asks of itself before a call.
ghost use Rattle.std.specs.Prelude.{None, ◌≡◌};
ghost use Rattle.paged_desks.specs.engine_trait.Refusals.{log_refusal};
ghost use Rattle.paged_calls.specs.Tests.{call_test, change_test, is_going};

use map_model::Refusal;
use page_model::limits::TRANSACTION_CHANGES;
use paged_desks::{Session, Unanswered, Unserved, WorkerLog};
use row_room::CLOCK_END;

// Whether a transaction is open, and its abort is not half done.
fn is_going(session: &Session) -> bool
    ensures { result ≡ is_going session.now }
{
    !session.is_half_aborted && session.is_open
}

// Why a call within a transaction is refused before it is begun.
pub(crate) fn call_refusal(session: &Session) -> Option<Unserved>
    ensures { result ≡ call_test session.now }
{
    if !session.works {
        return Some(Unserved::Unanswered(Unanswered::Broken));
    }
    if !is_going(session) {
        return Some(Unserved::Refused(Refusal::NoTransaction));
    }
    None
}

// Why a call that takes numbers is refused by its log or its clock.
fn log_refusal(clock: u64, log: &WorkerLog) -> Option<Refusal>
    ensures { result ≡ log_refusal clock log.now None }
{
    let used = log.used();
    let limit = log.limit();
    if limit <= used {
        return Some(Refusal::LogFull { used, limit });
    }
    if CLOCK_END <= clock {
        return Some(Refusal::ClockSpent);
    }
    None
}

// Why a call that changes its key is refused before it is begun.
pub(crate) fn change_refusal(session: &Session, log: &WorkerLog) -> Option<Unserved>
    ensures { result ≡ change_test session.now log.now }
{
    if let Some(why) = call_refusal(session) {
        return Some(why);
    }
    if TRANSACTION_CHANGES <= session.undo.len() {
        return Some(Unserved::Refused(Refusal::TooLong));
    }
    match log_refusal(session.clock.clock, log) {
        Some(why) => Some(Unserved::Refused(why)),
        None => None,
    }
}
