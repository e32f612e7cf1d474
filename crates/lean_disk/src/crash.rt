// What a crash leaves of an area in memory, by a choice.
ghost use Rattle.std.specs.Prelude.{◌≡◌, ◌≤◌, ◌+◌, ℕ, List, length, replicate, take, nat_le, true, IfOk, OnOk};
ghost use Rattle.lean_disk.specs.Area.{put_over};
ghost use Rattle.lean_disk.specs.Crashed.{Held, held_step, put_choice, held_at, left_by};
ghost use Rattle.lean_disk.specs.Memory.{log_view};
ghost use Rattle.lean_disk.specs.Inside.Synced.{IsSyncedBy};

use crate::bytes::overwrite;
use crate::{AreaLog, Call, What};
use std::alloc::{AllocError, Global};

/// Which of the unsynced bytes a crash leaves: none, all, the first half of each range, or zeros in each range.
#[derive(Clone, Copy, Debug, PartialEq, Eq)]
pub enum Choice {
    NoBytes,
    AllBytes,
    FirstHalf,
    Zeros,
}

// Whether a call was made by a moment.
fn is_by(call: &Call, moment: u64) -> bool
    ensures { result ≡ nat_le (call.now.number + call.now.notes) moment }
{
    call.notes <= moment && call.number <= moment - call.notes
}

fn put_zeros(alloc: Global, left: &mut Vec<u8>, at: usize, size: usize) -> Result<(), AllocError>
    ensures { OnOk result (left.new.items ≡ put_over at (replicate size 0) left.old.items) }
{
    let mut zeros = Vec::new(alloc);
    zeros.resize(size, 0)?;
    overwrite(left, at, &zeros)
}

// What reaches the disk of a write.
fn put(
    alloc: Global,
    left: &mut Vec<u8>,
    at: usize,
    bytes: &[u8],
    choice: Choice,
) -> Result<(), AllocError>
    ensures { OnOk result (left.new.items ≡ put_choice choice at bytes.now left.old.items) }
{
    match choice {
        Choice::NoBytes => Ok(()),
        Choice::AllBytes => overwrite(left, at, bytes),
        Choice::FirstHalf => overwrite(left, at, &bytes[..bytes.len() / 2]),
        Choice::Zeros => put_zeros(alloc, left, at, bytes.len()),
    }
}

// One call, on what a read gives.
fn read_on(read: &mut Vec<u8>, what: &What) -> Result<(), AllocError>
    ensures { OnOk result ((choice : Choice) (h : Held) → h.read ≡ read.old.items → (held_step choice h what.now).read ≡ read.new.items) }
{
    match what {
        What::Looked => Ok(()),
        What::Wrote { at, bytes, done } => {
            if *done {
                return overwrite(read, *at as usize, bytes);
            }
            Ok(())
        }
        What::Synced { .. } => Ok(()),
    }
}

// One call, on what a crash leaves, where a read gave these bytes before it.
fn left_on(
    alloc: Global,
    read: &[u8],
    left: &mut Vec<u8>,
    what: &What,
    choice: Choice,
) -> Result<(), AllocError>
    ensures { OnOk result ((h : Held) → h.read ≡ read.now → h.left ≡ left.old.items → (held_step choice h what.now).left ≡ left.new.items) }
{
    match what {
        What::Looked => Ok(()),
        What::Wrote { at, bytes, .. } => put(alloc, left, *at as usize, bytes, choice),
        What::Synced { done } => {
            if *done {
                *left = read.to_vec(alloc)?;
                return Ok(());
            }
            Ok(())
        }
    }
}

// Whether a call is a sync that answered Done, by a moment.
fn is_synced_by(call: &Call, moment: u64) -> bool
    ensures { result ≡ true → IsSyncedBy moment call.now }
{
    match call.what {
        What::Synced { done } => done && is_by(call, moment),
        _ => false,
    }
}

// How many calls there are up to the last sync by a moment: after them a crash leaves what a read gives.
fn last_synced(calls: &[Call], moment: u64) -> usize
    ensures inside { result ≤ length calls.now }
    ensures synced { (choice : Choice) (first : List ℕ) → (held_at choice moment first (take result calls.now)).left ≡ (held_at choice moment first (take result calls.now)).read }
{
    let mut last = 0;
    for i in 0..calls.len() {
        if is_synced_by(&calls[i], moment) {
            last = i + 1;
        }
    }
    last
}

// What a read gives after the calls up to a moment.
fn read_after(
    alloc: Global,
    first: &[u8],
    calls: &[Call],
    moment: u64,
) -> Result<Vec<u8>, AllocError>
    ensures { IfOk result (λ v. (choice : Choice) → (held_at choice moment first.now calls.now).read ≡ v.items) }
{
    let mut read = first.to_vec(alloc)?;
    for call in calls {
        if is_by(call, moment) {
            read_on(&mut read, &call.what)?;
        }
    }
    Ok(read)
}

// What a crash leaves after the calls up to a moment, where these bytes were synced before them.
fn left_after(
    alloc: Global,
    synced: &[u8],
    calls: &[Call],
    moment: u64,
    choice: Choice,
) -> Result<Vec<u8>, AllocError>
    ensures { IfOk result (λ v. v.items ≡ (held_at choice moment synced.now calls.now).left) }
{
    let mut read = synced.to_vec(alloc)?;
    let mut left = synced.to_vec(alloc)?;
    for call in calls {
        if is_by(call, moment) {
            left_on(alloc, &read, &mut left, &call.what, choice)?;
            read_on(&mut read, &call.what)?;
        }
    }
    Ok(left)
}

/// What a crash at a moment leaves of an area.
pub fn left_of(
    alloc: Global,
    log: &AreaLog,
    moment: u64,
    choice: Choice,
) -> Result<Vec<u8>, AllocError>
    ensures { IfOk result (λ v. v.items ≡ left_by choice moment (log_view log.now)) }
{
    let synced = last_synced(&log.calls, moment);
    let read = read_after(alloc, &log.first, &log.calls[..synced], moment)?;
    let left = left_after(alloc, &read, &log.calls[synced..], moment, choice)?;
    Ok(left)
}
