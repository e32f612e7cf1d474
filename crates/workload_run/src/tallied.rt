// An engine whose answers are counted.
ghost use Rattle.std.specs.Prelude.{◌≡◌, true};

use crate::tally::Tally;
use engine_front::Front;
use engine_front::calls::{Calls, Durable, Unanswered};
use lean_disk::Disk;
use lean_edge::{Put, Sink};
use map_model::{Answer, Call};

/// An engine, and what is counted of its answers.
pub(crate) struct Tallied<E> {
    pub engine: E,
    pub tally: Tally,
}

impl<D: Disk, E: Calls<D>> Calls<D> for Tallied<E> {
    ghost use Rattle.script_run.specs.Runs.{calls_of};
    ghost use Rattle.workload_run.specs.Inside.{IsTally};

    ghost in_run = { λ e g xs names. E.in_run e.engine g xs names × IsTally e.tally (calls_of xs) };

    ghost sessions = { λ e. E.sessions e.engine };

    ghost group = { λ e. E.group e.engine };

    ghost memory = { λ e. E.memory e.engine };

    ghost next = { λ e. E.next e.engine };

    ghost waiting = { λ e. E.waiting e.engine };

    ghost pairs_left = { λ e. E.pairs_left e.engine };

    ghost works = { λ e. E.works e.engine };

    ghost disk = { λ e. E.disk e.engine };

    fn told(&self) {
        self.engine.told();
    }

    fn front(&self) -> Front {
        self.engine.front()
    }

    fn session_count(&self) -> u32 {
        self.engine.session_count()
    }

    fn call(&mut self, session: u32, call: &Call) -> Result<Answer, Unanswered> {
        self.engine.told();
        match self.engine.call(session, call) {
            Ok(answer) => {
                self.tally.begin_line(call, &answer);
                Ok(answer)
            }
            Err(why) => Err(why),
        }
    }

    fn abort_hindered(&mut self) -> Result<Answer, Unanswered> {
        match self.engine.abort_hindered() {
            Ok(answer) => {
                self.tally.go_on(&answer);
                Ok(answer)
            }
            Err(why) => Err(why),
        }
    }

    fn scan_on(&mut self) -> Result<Answer, Unanswered> {
        self.engine.told();
        match self.engine.scan_on() {
            Ok(answer) => {
                self.tally.go_on(&answer);
                Ok(answer)
            }
            Err(why) => Err(why),
        }
    }

    fn next_durable(&mut self) -> Option<Durable> {
        self.engine.next_durable()
    }

    fn put_line<K: Sink<D>>(&mut self, sink: &mut K, line: &[u8]) -> Put {
        self.engine.put_line(sink, line)
    }

    fn close(self) -> D {
        let Tallied { engine, tally: _ } = self;
        engine.close()
    }
}
