// The lines that are made, one by one.
ghost use Rattle.std.specs.Prelude.{◌≡◌, ◌≤◌, MatchOption};
ghost use Rattle.workload.specs.Lines.{lines_of};
ghost use Rattle.workload_run.specs.Plans.{IsEnd, IsOver, IsStepOf, Takes};

use map_model::Call;
use script_lang::Line;
use workload::Workload;

/// No key is greater.
const LAST_KEY: u64 = u64::MAX - 1;

/// What comes behind the lines of the workload.
#[derive(Clone, Copy, Debug, PartialEq, Eq)]
pub(crate) enum Stage {
    /// The sync.
    Sync,
    /// The begin of the last transaction.
    Begin,
    /// A step of its walk.
    Walk,
}

/// The lines of a workload that are still to come, and what comes behind them.
#[derive(Drop)]
pub(crate) struct Plan {
    pub lines: Workload,
    pub stage: Stage,
}

impl Plan {
    pub fn new(number: u64, count: u32, workers: u32) -> Plan
        requires { 1 ≤ workers }
        ensures { (result.lines ≡ lines_of number count workers) × (result.stage ≡ Stage.Sync) }
    {
        Plan {
            lines: Workload::new(number, count, workers),
            stage: Stage::Sync,
        }
    }

    /// Takes the next line, where a walk goes on from this key, if it does.
    pub fn next(&mut self, on: Option<u64>) -> Option<Line>
        ensures { MatchOption result (IsOver self.old.lines self.old.stage on) (λ line. Takes self.old.lines self.old.stage on line self.new.lines self.new.stage) }
    {
        if let Some(line) = self.lines.next() {
            return Some(line);
        }
        match self.stage {
            Stage::Sync => {
                self.stage = Stage::Begin;
                Some(Line {
                    session: 0,
                    call: Call::Sync,
                })
            }
            Stage::Begin => {
                self.stage = Stage::Walk;
                Some(Line {
                    session: 1,
                    call: Call::Begin,
                })
            }
            Stage::Walk => scan_from(on),
        }
    }
}

// A step of a walk that goes on from this key.
fn scan_from(on: Option<u64>) -> Option<Line>
    ensures { MatchOption result (IsEnd on) (IsStepOf on) }
{
    let Some(from) = on else {
        return None;
    };
    if from > LAST_KEY {
        return None;
    }
    Some(Line {
        session: 1,
        call: Call::Scan { from, to: LAST_KEY },
    })
}
