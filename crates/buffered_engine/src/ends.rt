// What a call came to, and the end that it may be.
ghost use Rattle.std.specs.Prelude.{◌≡◌, None};
ghost use Rattle.paged_scans.specs.engine_trait.Serving.{unserved_answer};
ghost use Rattle.paged_scans.specs.paged_calls.Calls.{del_answer, get_answer, put_answer};
ghost use Rattle.paged_ends.specs.Ends.{begin_answer, commit_answer, sync_answer};
ghost use Rattle.paged_aborts.specs.Aborts.{abort_answer};
ghost use Rattle.paged_scans.specs.Calls.{step_answer};
ghost use Rattle.buffered_engine.specs.Inside.Asks.{receipt_in};

use group_commit::Receipt;
use map_model::Answer;
use paged_scans::{Ended, Step, Unanswered, Unserved};

/// What a call came to: its answer or why there is none, and the receipt of the end, if it ended a transaction.
#[derive(Clone, Copy)]
pub(crate) struct Response {
    pub answer: Result<Answer, Unanswered>,
    pub receipt: Option<Receipt>,
}

impl Response {
    /// It was answered so, and ended nothing.
    pub(crate) fn only(answer: Result<Answer, Unanswered>) -> Response
        ensures { result ≡ record { answer = answer; receipt = None } }
    {
        Response {
            answer,
            receipt: None,
        }
    }

    /// That of a begin.
    pub(crate) fn begun(begun: Result<u64, Unserved>) -> Response
        ensures { result ≡ record { answer = begin_answer begun; receipt = None } }
    {
        Response::only(match begun {
            Ok(number) => Ok(Answer::Begun { number }),
            Err(why) => unserved(why),
        })
    }

    /// That of a get.
    pub(crate) fn value(found: Result<Option<u64>, Unserved>) -> Response
        ensures { result ≡ record { answer = get_answer found; receipt = None } }
    {
        Response::only(match found {
            Ok(value) => Ok(Answer::Value(value)),
            Err(why) => unserved(why),
        })
    }

    /// That of a put or a del.
    pub(crate) fn was(was: Result<Option<u64>, Unserved>) -> Response
        ensures put { result ≡ record { answer = put_answer was; receipt = None } }
        ensures del { result ≡ record { answer = del_answer was; receipt = None } }
    {
        Response::only(match was {
            Ok(was) => Ok(Answer::Was(was)),
            Err(why) => unserved(why),
        })
    }

    /// That of a step of a scan.
    pub(crate) fn stepped(step: Result<Step, Unserved>) -> Response
        ensures { result ≡ record { answer = step_answer step; receipt = None } }
    {
        Response::only(match step {
            Ok(Step::Pair { key, value }) => Ok(Answer::Pair { key, value }),
            Ok(Step::More { from }) => Ok(Answer::More { from }),
            Ok(Step::End) => Ok(Answer::End),
            Err(why) => unserved(why),
        })
    }

    /// That of a sync.
    pub(crate) fn synced(synced: Result<u64, Unserved>) -> Response
        ensures { result ≡ record { answer = sync_answer synced; receipt = None } }
    {
        Response::only(match synced {
            Ok(at) => Ok(Answer::Synced { at }),
            Err(why) => unserved(why),
        })
    }

    /// That of a commit of a session.
    pub(crate) fn committed(own: u32, ended: Result<Ended, Unserved>) -> Response
        ensures { result ≡ record { answer = commit_answer ended; receipt = receipt_in own ended } }
    {
        match ended {
            Ok(ended) => Response {
                answer: Ok(Answer::Committed {
                    number: ended.number,
                    at: ended.at,
                }),
                receipt: Some(receipt_of(own, &ended)),
            },
            Err(why) => Response::only(unserved(why)),
        }
    }

    /// That of an abort of a session.
    pub(crate) fn aborted(own: u32, ended: Result<Ended, Unserved>) -> Response
        ensures { result ≡ record { answer = abort_answer ended; receipt = receipt_in own ended } }
    {
        match ended {
            Ok(ended) => Response {
                answer: Ok(Answer::Aborted {
                    number: ended.number,
                }),
                receipt: Some(receipt_of(own, &ended)),
            },
            Err(why) => Response::only(unserved(why)),
        }
    }
}

// What a call that was not served is answered.
fn unserved(why: Unserved) -> Result<Answer, Unanswered>
    ensures { result ≡ unserved_answer why }
{
    match why {
        Unserved::Refused(why) => Ok(Answer::Refused(why)),
        Unserved::Unanswered(why) => Err(why),
    }
}

// The receipt of an end of this log.
fn receipt_of(own: u32, ended: &Ended) -> Receipt
    ensures { result ≡ record { txn = ended.now.number; log = own; gsn = ended.now.at; need = ended.now.need } }
{
    Receipt {
        txn: ended.number,
        log: own,
        gsn: ended.at,
        need: ended.need,
    }
}
