// How a change ends that can be made where nobody else steps.
ghost use Rattle.std.specs.Prelude.{◌≡◌};
ghost use Rattle.row_tidying.specs.Ends.{HasRoomFor, IsExpected, IsExpectedOf, answer_of, cleared_of, session_after, session_behind};

use crate::purges::Cleared;
use btree_smo::outcome::Outcome;
use btree_smo::purge::Purged;
use map_model::Refusal;
use row_changes::{Session, Unanswered, Unserved, Unstaged};

// Answers what came of a join or a drop that frees this page.
pub(crate) fn finish(session: &mut Session, outcome: Outcome, page: u32) -> Result<u32, Unserved>
    requires expected { IsExpected outcome }
    requires room { HasRoomFor outcome session.old.free }
    ensures answer { result ≡ answer_of outcome page }
    ensures after { session.new ≡ session_after outcome page session.old }
{
    match outcome {
        Outcome::Done => {
            session.free.put(page);
            Ok(page)
        }
        Outcome::RowSpent { row: _ } => Err(Unserved::Refused(Refusal::RowSpent)),
        Outcome::Unstaged(Unstaged::DiskFault) => {
            session.works = false;
            Err(Unserved::Unanswered(Unanswered::DiskFault))
        }
        // The pages are as the call was told, the log has a block, no number is above the clock, and nobody else steps.
        Outcome::Unstaged(Unstaged::LogFull { .. }) => unreachable!(),
        Outcome::Full { row: _ } => unreachable!(),
        Outcome::TooTall => unreachable!(),
        Outcome::Stale { row: _ } => unreachable!(),
        Outcome::Moved(_) => unreachable!(),
        Outcome::Latched(_) => unreachable!(),
        Outcome::ClockSpent => unreachable!(),
    }
}

// Answers what came of a purge.
pub(crate) fn finish_purge(session: &mut Session, purged: Purged) -> Result<Cleared, Unserved>
    requires { IsExpectedOf purged }
    ensures answer { result ≡ cleared_of purged }
    ensures after { session.new ≡ session_behind purged session.old }
{
    match purged {
        Purged::Done => Ok(Cleared::Done),
        Purged::Spared { left } => Ok(Cleared::Spared { left }),
        Purged::Refused(Outcome::RowSpent { row: _ }) => Err(Unserved::Refused(Refusal::RowSpent)),
        Purged::Refused(Outcome::Unstaged(Unstaged::DiskFault)) => {
            session.works = false;
            Err(Unserved::Unanswered(Unanswered::DiskFault))
        }
        // A leaf stands in the frame, the log has a block, no number is above the clock, and nobody else steps.
        Purged::Refused(Outcome::Unstaged(Unstaged::LogFull { .. })) => unreachable!(),
        Purged::Refused(Outcome::Done) => unreachable!(),
        Purged::Refused(Outcome::Full { row: _ }) => unreachable!(),
        Purged::Refused(Outcome::TooTall) => unreachable!(),
        Purged::Refused(Outcome::Stale { row: _ }) => unreachable!(),
        Purged::Refused(Outcome::Moved(_)) => unreachable!(),
        Purged::Refused(Outcome::Latched(_)) => unreachable!(),
        Purged::Refused(Outcome::ClockSpent) => unreachable!(),
    }
}
