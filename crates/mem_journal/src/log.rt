// The workers' logs.
ghost use Rattle.std.specs.Prelude.{◌≡◌, ◌<◌, ℕ, length, slice_index_or, [], IfOk, OnErr};
ghost use Rattle.mem_journal.specs.Logs.{records_of, with_record};

use std::alloc::{AllocError, Global};

/// What a record says.
#[derive(Clone, Copy)]
pub enum What {
    /// The key got a word; it had another before, or none.
    Wrote {
        key: u64,
        before: Option<u64>,
        after: u64,
    },
    /// A transaction ended.
    Ended {
        commit: bool,
    },
}

/// A record of a log.
#[derive(Clone, Copy)]
pub struct Record {
    pub number: u64,
    pub what: What,
}

// A call's later records, put-backs and an end: past the room a log takes them still.
const LATER: usize = 96;

/// So many empty logs, with room for so many records, and for a call's later ones.
pub(crate) fn empty_logs(
    alloc: Global,
    count: u32,
    room: u32,
) -> Result<Vec<Vec<Record>>, AllocError>
    ensures count { IfOk result (λ logs. length logs.items ≡ count) }
    ensures empty { IfOk result (λ logs. (w : ℕ) → slice_index_or (records_of logs.items) w [] ≡ []) }
{
    let mut logs = Vec::new(alloc);
    for _log in 0..count {
        logs.push(Vec::with_capacity(alloc, room as usize + LATER)?)?;
    }
    Ok(logs)
}

/// The record comes into the log. Where memory was wanting nothing changes.
pub(crate) fn enter(logs: &mut Vec<Vec<Record>>, w: u32, added: Record) -> Result<(), AllocError>
    requires { w < length logs.old.items }
    ensures after { IfOk result (λ _. records_of logs.new.items ≡ with_record (records_of logs.old.items) w added) }
    ensures same { OnErr result (records_of logs.new.items ≡ records_of logs.old.items) }
{
    logs[w as usize].push(added)?;
    Ok(())
}
