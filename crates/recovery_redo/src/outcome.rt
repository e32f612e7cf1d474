// How far the logs reach, and which transactions are ended.
ghost use Rattle.std.specs.Prelude.{◌≡◌, ◌≤◌, ◌<◌, ◌||◌, ◌&&◌, ◌==◌, ℕ, false, not, leb, length, IfOk, OnOk, HoldsAt, replicate};
ghost use Rattle.rfa_model.specs.Reaches.{reach_of};
ghost use Rattle.disk_image.specs.image_model.Ends as ends;
ghost use Rattle.recovery_scan.specs.Records.{entry_of, entries_of};
ghost use Rattle.recovery_scan.specs.Scans.{AreOfLogs};
ghost use Rattle.recovery_redo.specs.Inside.{of_txn, has_txn, number_in, AreGreatest, IsTop, AreEnded};

use crate::fields::need_of;
use crate::kinds::{is_commit, is_end};
use crate::txns::{add_txn, has_txn, no_txns};
use disk_image::Record;
use log_index::{Head, LogIndex};
use std::alloc::{AllocError, Global};
use std::collections::BTreeSet;

/// The most logs that a disk has.
const MOST_LOGS: usize = 16;

/// The head of a record of one of so many logs.
pub(crate) fn head_in(logs: usize, index: &LogIndex, i: usize) -> Head
    requires within { i < length index.now }
    requires of_logs { AreOfLogs logs index.now }
    ensures head { HoldsAt (λ x. (result.number ≡ x.said.gsn) × (result.txn ≡ x.said.txn) × (result.log ≡ x.log)) index.now i }
    ensures log { (0 < result.log) × (result.log ≤ logs) }
{
    index.head(i)
}

/// The greatest of the floor and all numbers.
pub(crate) fn top(floor: u64, index: &LogIndex) -> u64
    ensures { IsTop floor (entries_of index.now) result }
{
    let mut top = floor;
    for i in 0..index.len() {
        top = top.max(index.head(i).number);
    }
    top
}

/// The least, over the logs, of the greater of the floor and the log's greatest number.
pub(crate) fn reach(logs: usize, floor: u64, index: &LogIndex) -> u64
    requires logs { (0 < logs) × (logs ≤ 16) }
    requires of_logs { AreOfLogs logs index.now }
    ensures { result ≡ ends.reach logs floor (entries_of index.now) }
{
    let mut greatest = [0; MOST_LOGS];
    find_greatest(&mut greatest, index);
    least(logs, floor, &greatest)
}

// The greatest number of each log, in a row of zeros.
fn find_greatest(greatest: &mut [u64], index: &LogIndex)
    requires zeros { greatest.old ≡ replicate (length greatest.old) 0 }
    requires of_logs { AreOfLogs (length greatest.old) index.now }
    ensures { AreGreatest (entries_of index.now) greatest.new }
{
    for i in 0..index.len() {
        let head = head_in(greatest.len(), index, i);
        let log = head.log as usize - 1;
        greatest[log] = greatest[log].max(head.number);
    }
}

fn least(logs: usize, floor: u64, greatest: &[u64]) -> u64
    requires { (0 < logs) × (logs ≤ length greatest.now) }
    ensures { result ≡ reach_of logs floor (number_in greatest.now) }
{
    let mut far = floor.max(greatest[0]);
    for log in 0..logs {
        far = far.min(floor.max(greatest[log]));
    }
    far
}

/// The transactions that are ended, where the logs reach up to `far`.
pub(crate) fn ended(
    alloc: Global,
    logs: usize,
    far: u64,
    index: &LogIndex,
    entry: &mut Record,
) -> Result<Vec<BTreeSet<u64>>, AllocError>
    requires of_logs { AreOfLogs logs index.now }
    ensures ended { IfOk result (λ ended. AreEnded logs far (entries_of index.now) ended.items) }
    ensures count { IfOk result (λ ended. length ended.items ≡ logs) }
{
    let mut ended = no_txns(alloc, logs)?;
    for i in 0..index.len() {
        add_end(&mut ended, far, index, i, entry)?;
    }
    Ok(ended)
}

fn add_end(
    ended: &mut [BTreeSet<u64>],
    far: u64,
    index: &LogIndex,
    i: usize,
    entry: &mut Record,
) -> Result<(), AllocError>
    requires within { i < length index.now }
    requires of_logs { AreOfLogs (length ended.old) index.now }
    ensures after { OnOk result (HoldsAt (λ x. (w t : ℕ) → 0 < w → has_txn ended.new w t ≡ (ends.ends far (of_txn w t) (entry_of x) || has_txn ended.old w t)) index.now i) }
    ensures count { length ended.new ≡ length ended.old }
{
    if ends(far, index, i, entry) {
        let head = head_in(ended.len(), index, i);
        add_txn(ended, head.log, head.txn)?;
        return Ok(());
    }
    Ok(())
}

// The record ends its transaction.
fn ends(far: u64, index: &LogIndex, i: usize, entry: &mut Record) -> bool
    requires { i < length index.now }
    ensures { HoldsAt (λ x. result ≡ ends.ends far (entry_of x) (entry_of x)) index.now i }
{
    is_end(index, i) && is_reached(far, index, i, entry)
}

// The record ends its transaction by commit.
fn wins(far: u64, index: &LogIndex, i: usize, entry: &mut Record) -> bool
    requires { i < length index.now }
    ensures { HoldsAt (λ x. result ≡ ends.wins far (entry_of x)) index.now i }
{
    is_commit(index, i) && is_reached(far, index, i, entry)
}

// The logs reach what the record needs.
fn is_reached(far: u64, index: &LogIndex, i: usize, entry: &mut Record) -> bool
    requires { i < length index.now }
    ensures { HoldsAt (λ x. result ≡ leb (entry_of x).need far) index.now i }
{
    index.read(i, entry);
    need_of(entry) <= far
}

/// How many transactions are ended by commit.
pub(crate) fn winners(far: u64, index: &LogIndex, entry: &mut Record) -> u64
    ensures { result ≡ length (ends.winners far (entries_of index.now)) }
{
    let mut winners = 0;
    for i in 0..index.len() {
        if wins(far, index, i, entry) {
            winners += 1;
        }
    }
    winners
}

/// How many others have records.
pub(crate) fn losers(
    alloc: Global,
    ended: &[BTreeSet<u64>],
    index: &LogIndex,
) -> Result<u64, AllocError>
    requires of_logs { AreOfLogs (length ended.now) index.now }
    ensures { (far : ℕ) → AreEnded (length ended.now) far (entries_of index.now) ended.now → IfOk result (λ n. n ≡ length (ends.losers far (entries_of index.now))) }
{
    let mut seen = no_txns(alloc, ended.len())?;
    let mut losers = 0;
    for i in 0..index.len() {
        let head = head_in(ended.len(), index, i);
        if is_new_loser(ended, &mut seen, head.log, head.txn)? {
            losers += 1;
        }
    }
    Ok(losers)
}

// The transaction is not ended, and was not seen before.
fn is_new_loser(
    ended: &[BTreeSet<u64>],
    seen: &mut [BTreeSet<u64>],
    log: u8,
    txn: u64,
) -> Result<bool, AllocError>
    requires ended { (0 < log) × (log ≤ length ended.now) }
    requires seen { log ≤ length seen.old }
    ensures answer { IfOk result (λ new. new ≡ (not (has_txn ended.now log txn) && not (has_txn seen.old log txn))) }
    ensures seen { OnOk result ((w t : ℕ) → 0 < w → has_txn ended.now w t ≡ false → has_txn seen.new w t ≡ (((log == w) && (txn == t)) || has_txn seen.old w t)) }
    ensures count { length seen.new ≡ length seen.old }
{
    if has_txn(ended, log, txn) {
        return Ok(false);
    }
    add_txn(seen, log, txn)
}
