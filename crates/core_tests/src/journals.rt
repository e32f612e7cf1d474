// The committed transactions of a state.
use crate::maps::{value_of, written};
use map_model::{Answer, Answered, Call};
use plain_core::{Core, Entry, Kind};
use plain_images::pairs::find;
use plain_images::{Name, Pair};
use std::alloc::{AllocError, Global};

/// A committed transaction: its worker, its number there, its commit number, and what that needs.
#[derive(Clone, Copy, PartialEq, Eq)]
pub struct Committed {
    pub session: u64,
    pub number: u64,
    pub at: u64,
    pub need: u64,
}

/// The committed transactions by commit number, the first one first.
pub fn journal_of(alloc: Global, core: &Core) -> Result<Vec<Committed>, AllocError> {
    let mut journal = Vec::new(alloc);
    for entry in &core.entries {
        if entry.kind == Kind::Commit {
            journal.push(Committed {
                session: entry.log,
                number: entry.txn,
                at: entry.number,
                need: entry.need,
            })?;
        }
    }
    journal.sort_by_key(|txn| (txn.at, txn.session))?;
    Ok(journal)
}

/// Those that won, and those whose end is up to the floor.
pub fn kept_of(
    alloc: Global,
    journal: &[Committed],
    floor: u64,
    winners: &[Name],
) -> Result<Vec<Committed>, AllocError> {
    let mut kept = Vec::new(alloc);
    for txn in journal {
        let mut is_kept = txn.at <= floor;
        for name in winners {
            if u64::from(name.session) == txn.session && name.number == txn.number {
                is_kept = true;
            }
        }
        if is_kept {
            kept.push(*txn)?;
        }
    }
    Ok(kept)
}

fn is_call_of(entry: &Entry, txn: Committed) -> bool {
    entry.log == txn.session
        && entry.txn == txn.number
        && matches!(entry.kind, Kind::Read | Kind::Change | Kind::PutBack)
}

/// The map after these transactions, one after another, or none where one of their calls is answered otherwise.
pub fn after(
    alloc: Global,
    core: &Core,
    first: &[Pair],
    txns: &[Committed],
) -> Result<Option<Vec<Pair>>, AllocError> {
    let mut map = Vec::from_slice(alloc, first)?;
    for txn in txns {
        for entry in core.entries.iter().rev() {
            if is_call_of(entry, *txn) {
                let is_read = entry.kind == Kind::Read;
                let found = if is_read { entry.after } else { entry.before };
                if value_of(found) != find(&map, entry.key) {
                    return Ok(None);
                }
                if !is_read {
                    map = written(alloc, &map, entry.key, entry.after)?;
                }
            }
        }
    }
    Ok(Some(map))
}

/// Each that wrote a key or held its row alone, before a kept one used the key, is kept.
pub fn is_closed(
    alloc: Global,
    core: &Core,
    journal: &[Committed],
    kept: &[Committed],
) -> Result<bool, AllocError> {
    let mut lost = Vec::new(alloc);
    for txn in journal {
        let is_kept = kept.contains(txn);
        for entry in &core.entries {
            if is_call_of(entry, *txn) {
                if is_kept && lost.contains(&entry.key) {
                    return Ok(false);
                }
                // a read that needs 1 was of a row that was held alone
                if !is_kept && (entry.kind != Kind::Read || entry.need == 1) {
                    lost.push(entry.key)?;
                }
            }
        }
    }
    Ok(true)
}

/// Each that is flushed in its own log, where all logs are as far as it needs, is kept.
pub fn has_ripe(core: &Core, journal: &[Committed], kept: &[Committed]) -> bool {
    let by_all = core.flushed_by_all();
    for txn in journal {
        let is_ripe = txn.at <= *core.flushed.get(txn.session) && txn.need <= by_all;
        if is_ripe && !kept.contains(txn) {
            return false;
        }
    }
    true
}

/// The lines of a script that tell of the same transactions, where none of them deletes: a script has no such line.
pub fn transcript_of(
    alloc: Global,
    core: &Core,
    txns: &[Committed],
) -> Result<Option<Vec<Answered>>, AllocError> {
    let mut lines = Vec::new(alloc);
    for txn in txns {
        let session = u32::try_from(txn.session).unwrap_or(u32::MAX);
        let number = txn.number;
        lines.push(Answered {
            session,
            call: Call::Begin,
            answer: Answer::Begun { number },
        })?;
        for entry in core.entries.iter().rev() {
            if is_call_of(entry, *txn) {
                let key = entry.key;
                let value = value_of(entry.after);
                let (call, answer) = match value {
                    _ if entry.kind == Kind::Read => (Call::Get { key }, Answer::Value(value)),
                    Some(value) => (
                        Call::Put { key, value },
                        Answer::Was(value_of(entry.before)),
                    ),
                    None => return Ok(None),
                };
                lines.push(Answered {
                    session,
                    call,
                    answer,
                })?;
            }
        }
        let at = txn.at;
        lines.push(Answered {
            session,
            call: Call::Commit,
            answer: Answer::Committed { number, at },
        })?;
    }
    Ok(Some(lines))
}
