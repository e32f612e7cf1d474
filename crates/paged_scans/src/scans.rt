// A scan, step by step.
ghost use Rattle.std.specs.Prelude.{◌≡◌, ◌⊎◌, ◌↔◌, ◌≤◌, ◌<◌, ◌-◌, ◌^◌, true, false, Err, IfErr};
ghost use Rattle.map_model.specs.declared.call.Call.TheVariants as call;
ghost use Rattle.map_model.specs.declared.call.Refusal.{Refusal};
ghost use Rattle.paged_calls.specs.engine_trait.declared.unserved.Unserved.{Unserved};
ghost use Rattle.paged_calls.specs.engine_trait.Serving.{MayRefuse, broken, disk_fault};
ghost use Rattle.lean_disk.specs.Faults.{HasCause};
ghost use Rattle.paged_calls.specs.session_desks.Parts.{AreAsMany, SeatFits, Works};
ghost use Rattle.paged_calls.specs.paged_desks.Machines.{IsReady};
ghost use Rattle.paged_calls.specs.paged_desks.Calls.{CallDoes, EndsWork, works_behind};
ghost use Rattle.paged_scans.specs.Calls.{IsIn, StandsAt, step_answer, step_behind};

use crate::laws::laws;
use crate::nexts::next;
use paged_calls::{PagedMachine, Stages, Unserved, call_refusal};

/// How many pairs a scan tells, before it stops.
pub const PAIRS: u32 = 64;

/// A scan of the pairs from one key to another: where it stands, and how many pairs it has told.
#[derive(Clone, Copy, Debug, PartialEq, Eq)]
pub struct Scan {
    pub from: u64,
    pub to: u64,
    pub at: u64,
    pub met: u32,
}

/// What a step of a scan tells.
#[derive(Clone, Copy, Debug, PartialEq, Eq)]
pub enum Step {
    /// The next pair.
    Pair { key: u64, value: u64 },
    /// It has told as many pairs as it may, and goes on from this key where it is asked again.
    More { from: u64 },
    /// There is no further one.
    End,
}

impl Scan {
    /// The scan of a line, before its first step.
    pub fn new(from: u64, to: u64) -> Scan
        ensures { result ≡ record { from = from; to = to; at = from; met = 0 } }
    {
        Scan {
            from,
            to,
            at: from,
            met: 0,
        }
    }
}

/// The next step of a scan of the session whose turn it is. A step takes the rows of the entries that it meets, shared, tombstones' too, and behind the last
/// pair those up to the next live one in its leaf, whatever its key is. A scan whose first key is above the last one takes none.
pub fn scan_on<D: Stages>(machine: &mut PagedMachine<D>, scan: &mut Scan) -> Result<Step, Unserved>
    requires ready { Works machine.old.machine → IsReady D.story machine.old }
    requires within { IsIn scan.old }
    ensures ready { Works machine.new.machine → IsReady D.story machine.new }
    ensures fits { SeatFits machine.old.machine → SeatFits machine.new.machine }
    ensures does { Works machine.old.machine → CallDoes D.story (StandsAt machine.old.machine.work.session.own scan.old) machine.old.machine.work.session.own (call.Scan scan.old.from scan.old.to) (step_answer result) machine.old machine.new }
    ensures behind { (scan.new ≡ step_behind result scan.old) × IsIn scan.new }
    ensures same { (result ≡ Err broken) ⊎ (result ≡ Err (Unserved.Refused Refusal.NoTransaction)) → machine.new ≡ machine.old }
    ensures session { AreAsMany machine.old.machine machine.new.machine }
    ensures turn { Works machine.new.machine → machine.new.machine.work.session.own ≡ machine.old.machine.work.session.own }
    ensures works { machine.new.machine.work.session.works ≡ works_behind result }
    ensures come { IfErr result (λ why. MayRefuse machine.old.machine.work.session.workers why ⊎ EndsWork why) }

    ensures cause_broken { (result ≡ Err broken) ↔ (machine.old.machine.work.session.works ≡ false) }
    ensures cause_disk_fault { HasCause (D.faults machine.old.machine.work.disk) (D.faults machine.new.machine.work.disk) (result ≡ Err disk_fault) }
{
    laws();
    if let Some(why) = call_refusal(&machine.machine.work.session) {
        return Err(why);
    }
    if scan.to < scan.at {
        return Ok(Step::End);
    }
    if scan.met == PAIRS {
        return Ok(Step::More { from: scan.at });
    }
    match next(machine, scan.at, scan.to) {
        Ok(Some((key, value))) => {
            scan.at = key + 1;
            scan.met += 1;
            Ok(Step::Pair { key, value })
        }
        Ok(None) => Ok(Step::End),
        Err(why) => Err(why),
    }
}
