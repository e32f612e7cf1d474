// How far the logs reach, who won and who lost. Records stand with the newest of each log before those behind it.
ghost use Rattle.std.specs.Prelude.{◌≡◌, ◌∷◌, [], IfOk};
ghost use Rattle.image_model.specs.Ends as ends;
ghost use Rattle.image_model.specs.Entries as entries;
ghost use Rattle.plain_images.specs.Records.{kind_of, entry_of, entries_of};
ghost use Rattle.plain_images.specs.Names.{names_of};

use crate::records::{Kind, Record};
use std::alloc::{AllocError, Global};

/// A transaction's name: its session, and its number among the session's.
#[derive(Clone, Copy, Debug, PartialEq, Eq)]
pub struct Name {
    pub session: u32,
    pub number: u64,
}

/// The least, over the logs 1 to `logs`, of the greater of the floor and the log's greatest number.
pub fn reach(logs: usize, floor: u64, records: &[Record]) -> u64
    ensures { result ≡ ends.reach logs floor (entries_of records.now) }
{
    let mut least = floor.max(greatest(1, records));
    let mut log = 0;
    while log < logs {
        log += 1;
        least = floor.max(greatest(log, records)).min(least);
    }
    least
}

// The log's greatest number, 0 where it has none.
fn greatest(log: usize, records: &[Record]) -> u64
    ensures { result ≡ ends.greatest log (entries_of records.now) }
{
    let mut most = 0;
    let mut left = records.len();
    while left > 0 {
        left -= 1;
        if records[left].log as usize == log {
            most = records[left].number.max(most);
        }
    }
    most
}

/// The transactions that are ended by commit, where all logs reach up to `far`.
///
/// # Errors
/// Where memory runs out.
pub fn winners(alloc: Global, far: u64, records: &[Record]) -> Result<Vec<Name>, AllocError>
    ensures { IfOk result (λ winners. names_of winners.items ≡ ends.winners far (entries_of records.now)) }
{
    let mut winners = Vec::new(alloc);
    for entry in records {
        if wins(far, entry) {
            winners.push(name_of(entry))?;
        }
    }
    Ok(winners)
}

/// The other transactions with records that are not ended.
///
/// # Errors
/// Where memory runs out.
pub fn losers(alloc: Global, far: u64, records: &[Record]) -> Result<Vec<Name>, AllocError>
    ensures { IfOk result (λ losers. names_of losers.items ≡ ends.losers far (entries_of records.now)) }
{
    let mut losers = Vec::new(alloc);
    for place in 0..records.len() {
        let entry = &records[place];
        if is_first(entry, &records[place + 1..]) && !is_ended(far, records, entry) {
            losers.push(name_of(entry))?;
        }
    }
    Ok(losers)
}

fn name_of(entry: &Record) -> Name
    ensures { names_of (result ∷ []) ≡ ends.names_of (entries_of (entry.now ∷ [])) }
{
    Name {
        session: entry.log,
        number: entry.txn,
    }
}

fn wins(far: u64, entry: &Record) -> bool
    ensures { result ≡ ends.wins far (entry_of entry.now) }
{
    entry.kind == Kind::Commit && entry.need <= far
}

fn is_end(kind: Kind) -> bool
    ensures { result ≡ entries.is_end (kind_of kind) }
{
    matches!(kind, Kind::Commit | Kind::Abort)
}

// The record's transaction is ended.
pub(crate) fn is_ended(far: u64, records: &[Record], entry: &Record) -> bool
    ensures { result ≡ ends.ended far (entries_of records.now) (entry_of entry.now) }
{
    for end in records {
        if ends_it(far, end, entry) {
            return true;
        }
    }
    false
}

fn ends_it(far: u64, end: &Record, entry: &Record) -> bool
    ensures { result ≡ ends.ends far (entry_of entry.now) (entry_of end.now) }
{
    is_end(end.kind) && is_same(end, entry) && end.need <= far
}

// Both are of one transaction.
fn is_same(a: &Record, b: &Record) -> bool
    ensures { result ≡ entries.same_txn (entry_of a.now) (entry_of b.now) }
{
    a.log == b.log && a.txn == b.txn
}

// None of these is of the record's transaction.
fn is_first(entry: &Record, earlier: &[Record]) -> bool
    ensures { result ≡ ends.is_first (entries_of earlier.now) (entry_of entry.now) }
{
    for other in earlier {
        if is_same(entry, other) {
            return false;
        }
    }
    true
}
