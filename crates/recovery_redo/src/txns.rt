// Sets of transactions: one for each log, since each log counts its own.
ghost use Rattle.std.specs.Prelude.{◌≡◌, ◌≤◌, ◌<◌, ◌&&◌, ◌||◌, ◌==◌, ℕ, not, length, IfOk, OnOk};
ghost use Rattle.recovery_redo.specs.Inside.{has_txn, HasNone};

use std::alloc::{AllocError, Global};
use std::collections::BTreeSet;

/// No transactions, of so many logs.
pub(crate) fn no_txns(alloc: Global, logs: usize) -> Result<Vec<BTreeSet<u64>>, AllocError>
    ensures { IfOk result (λ sets. HasNone logs sets.items) }
{
    let mut sets = Vec::with_capacity(alloc, logs)?;
    for _ in 0..logs {
        sets.push_reserved(BTreeSet::new(alloc));
    }
    Ok(sets)
}

/// The set of the log has the transaction.
pub(crate) fn has_txn(sets: &[BTreeSet<u64>], log: u8, txn: u64) -> bool
    requires { (0 < log) × (log ≤ length sets.now) }
    ensures { result ≡ has_txn sets.now log txn }
{
    sets[log as usize - 1].contains(&txn)
}

/// Adds the transaction to the set of the log. The answer is whether it is new there.
pub(crate) fn add_txn(sets: &mut [BTreeSet<u64>], log: u8, txn: u64) -> Result<bool, AllocError>
    requires { (0 < log) × (log ≤ length sets.old) }
    ensures answer { IfOk result (λ new. new ≡ not (has_txn sets.old log txn)) }
    ensures after { OnOk result ((w t : ℕ) → 0 < w → has_txn sets.new w t ≡ (((log == w) && (txn == t)) || has_txn sets.old w t)) }
    ensures count { length sets.new ≡ length sets.old }
{
    let new = sets[log as usize - 1].insert(txn)?;
    Ok(new)
}
