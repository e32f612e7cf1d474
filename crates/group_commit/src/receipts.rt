// Receipts of commits, and whether a commit outlives a crash.
ghost use Rattle.std.specs.Prelude.{◌≡◌, ◌<◌, ◌≤◌, length};
ghost use Rattle.rfa_model.specs.Reaches.{least};
ghost use Rattle.group_commit.specs.Ripeness.{flushed_of, ripeness_of, waits_from};

/// How many logs there may be.
pub const LOGS: usize = 16;

/// What a commit is given: the number of the transaction, the log that has its end, the end's number there, and the number up to which
/// all logs are to be flushed for it, 0 where it owes the others nothing.
#[derive(Clone, Copy, Debug, PartialEq, Eq)]
pub struct Receipt {
    pub txn: u64,
    pub log: u32,
    pub gsn: u64,
    pub need: u64,
}

/// Whether a commit outlives a crash.
#[derive(Clone, Copy, Debug, PartialEq, Eq)]
pub enum Ripeness {
    /// It does, from now on.
    Durable,
    /// It waits for this log, which is flushed up to this number.
    Waits { log: u32, flushed: u64 },
}

/// What becomes of a receipt, where log w is flushed up to `flushed[w - 1]`. It waits for its own log first, then for the first one that
/// is below what it needs.
pub fn ripe(flushed: &[u64], receipt: &Receipt) -> Ripeness
    requires log { (0 < receipt.now.log) × (receipt.now.log ≤ length flushed.now) }
    requires few { length flushed.now ≤ LOGS }
    ensures { result ≡ ripeness_of flushed.now receipt.now }
{
    let own = flushed[receipt.log as usize - 1];
    if own < receipt.gsn {
        return Ripeness::Waits {
            log: receipt.log,
            flushed: own,
        };
    }
    wait_for(flushed, receipt.need)
}

// The first log that is not flushed up to this number, if there is one.
fn wait_for(flushed: &[u64], need: u64) -> Ripeness
    requires { length flushed.now ≤ LOGS }
    ensures { result ≡ waits_from 1 need flushed.now }
{
    for (i, number) in flushed.iter().enumerate() {
        if *number < need {
            return Ripeness::Waits {
                log: i as u32 + 1,
                flushed: *number,
            };
        }
    }
    Ripeness::Durable
}

// The number up to which all logs are flushed.
pub(crate) fn least_of(flushed: &[u64]) -> u64
    ensures { result ≡ least (flushed_of flushed.now) (length flushed.now) }
{
    if flushed.is_empty() {
        return 0;
    }
    let mut found = flushed[0];
    for number in flushed {
        found = found.min(*number);
    }
    found
}
