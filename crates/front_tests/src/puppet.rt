// An engine that answers by rote. It stands in no run, so nothing is said of its answers.
ghost use Rattle.std.specs.Prelude.{◌≡◌};
ghost use Rattle.engine_front.specs.Turns.{behind_answer, behind_durables};

use engine_front::Front;
use engine_front::calls::{Calls, Durable, Next, Unanswered};
use lean_disk::Disk;
use lean_edge::{Put, Sink};
use map_model::{Answer, Call, Refusal};
use std::marker::Brand;

/// A get of this key meets a damaged page, at this place; so does a scan that comes to it.
pub(crate) const DAMAGED: u64 = 13;

pub(crate) const PLACE: u64 = 4;

/// The row of this key is held by another session.
pub(crate) const HELD: u64 = 7;

/// So many pairs a scan tells at most. Each key has itself for its value.
pub(crate) const PAIRS: u64 = 3;

/// An engine of two sessions. Behind the next answer that is the last of its line so many commits of session 1 are durable.
pub(crate) struct Puppet<D> {
    pub disk: D,
    pub works: bool,
    pub next: Next,
    pub ripe: u32,
    /// How often it was asked.
    pub asked: u32,
    /// Of the scan that goes on: its next key, its last one, and how many pairs it may still tell.
    pub key: u64,
    pub to: u64,
    pub pairs: u64,
    /// An abort that is due meets a damaged page.
    pub is_abort_damaged: bool,
}

// What comes behind the durable lines.
fn behind(next: Next) -> Next
    ensures { result ≡ behind_durables next }
{
    match next {
        Next::Durables => Next::Line,
        next => next,
    }
}

// What comes behind an answer.
fn follows(answer: &Answer) -> Next
    ensures { result ≡ behind_answer answer.now }
{
    match *answer {
        Answer::Pair { .. } => Next::Scan,
        Answer::Refused(Refusal::Conflict { .. }) => Next::Abort,
        _ => Next::Durables,
    }
}

impl<D: Disk> Calls<D> for Puppet<D> {
    ghost use Rattle.std.specs.Prelude.{ℕ};
    ghost use Rattle.front_tests.specs.Puppets.{no_memory};

    ghost in_run = { λ e g xs names. ⊥ };

    ghost sessions = { λ e. 2 };

    ghost group = { λ e. 1 };

    ghost memory = { λ e. no_memory };

    ghost next = { λ e. e.next };

    ghost waiting = { λ e. e.ripe };

    ghost pairs_left = { λ e. e.pairs };

    ghost works = { λ e. e.works };

    ghost disk = { λ e. e.disk };

    fn told(&self) {}

    fn front(&self) -> Front {
        Front::of::<Brand>()
    }

    fn session_count(&self) -> u32 {
        2
    }

    fn call(&mut self, _: u32, call: &Call) -> Result<Answer, Unanswered> {
        if !self.works {
            return Err(Unanswered::Broken);
        }
        self.asked = self.asked.wrapping_add(1);
        if let Call::Scan { from, to } = *call {
            self.key = from.wrapping_add(1);
            self.to = to;
            self.pairs = PAIRS - 1;
            self.next = Next::Scan;
            return Ok(Answer::Pair {
                key: from,
                value: from,
            });
        }
        let answer = match *call {
            Call::Begin => Answer::Begun { number: 1 },
            Call::Get { key: DAMAGED } => {
                self.works = false;
                return Err(Unanswered::Damaged { place: PLACE });
            }
            Call::Get { key: HELD } => Answer::Refused(Refusal::Conflict { holder: 2 }),
            Call::Get { .. } => Answer::Value(None),
            Call::Commit => Answer::Committed { number: 1, at: 2 },
            Call::Abort => Answer::Aborted { number: 1 },
            Call::Sync => Answer::Synced { at: 2 },
            _ => Answer::Was(None),
        };
        self.next = follows(&answer);
        Ok(answer)
    }

    fn abort_hindered(&mut self) -> Result<Answer, Unanswered> {
        if !self.works {
            return Err(Unanswered::Broken);
        }
        self.asked = self.asked.wrapping_add(1);
        if self.is_abort_damaged {
            self.works = false;
            return Err(Unanswered::Damaged { place: PLACE });
        }
        self.next = Next::Durables;
        Ok(Answer::Aborted { number: 1 })
    }

    fn scan_on(&mut self) -> Result<Answer, Unanswered> {
        if !self.works {
            return Err(Unanswered::Broken);
        }
        self.asked = self.asked.wrapping_add(1);
        let key = self.key;
        if key == DAMAGED {
            self.works = false;
            return Err(Unanswered::Damaged { place: PLACE });
        }
        if key > self.to {
            self.next = Next::Durables;
            return Ok(Answer::End);
        }
        if self.pairs == 0 {
            self.next = Next::Durables;
            return Ok(Answer::More { from: key });
        }
        if key == HELD {
            self.next = Next::Abort;
            return Ok(Answer::Refused(Refusal::Conflict { holder: 2 }));
        }
        self.key = key.wrapping_add(1);
        self.pairs -= 1;
        self.next = Next::Scan;
        Ok(Answer::Pair { key, value: key })
    }

    fn next_durable(&mut self) -> Option<Durable> {
        if self.ripe == 0 {
            self.next = behind(self.next);
            return None;
        }
        self.ripe -= 1;
        Some(Durable {
            session: 1,
            number: 1,
        })
    }

    fn put_line<K: Sink<D>>(&mut self, sink: &mut K, line: &[u8]) -> Put {
        sink.put(&mut self.disk, line)
    }

    fn close(self) -> D {
        let Puppet {
            disk,
            works: _,
            next: _,
            ripe: _,
            asked: _,
            key: _,
            to: _,
            pairs: _,
            is_abort_damaged: _,
        } = self;
        disk
    }
}
