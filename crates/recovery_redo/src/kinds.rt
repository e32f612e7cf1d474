// The kinds of records, as they stand on disks.
ghost use Rattle.std.specs.Prelude.{◌≡◌, ◌<◌, length, HoldsAt};
ghost use Rattle.disk_image.specs.image_model.Entries as model;
ghost use Rattle.recovery_scan.specs.Records.{entry_of};

use log_index::LogIndex;

/// A change of a key.
const CHANGE: u8 = 1;

/// A change that is put back.
const PUT_BACK: u8 = 2;

/// A transaction is committed.
const COMMIT: u8 = 8;

/// A transaction has changed nothing.
const ABORT: u8 = 9;

/// The record is a change of a key, or one that is put back.
pub(crate) fn is_write(index: &LogIndex, i: usize) -> bool
    requires { i < length index.now }
    ensures { HoldsAt (λ x. result ≡ model.is_write (entry_of x).kind) index.now i }
{
    let kind = index.head(i).kind;
    kind == CHANGE || kind == PUT_BACK
}

/// The record ends a transaction.
pub(crate) fn is_end(index: &LogIndex, i: usize) -> bool
    requires { i < length index.now }
    ensures { HoldsAt (λ x. result ≡ model.is_end (entry_of x).kind) index.now i }
{
    let kind = index.head(i).kind;
    kind == COMMIT || kind == ABORT
}

/// The record ends a transaction by commit.
pub(crate) fn is_commit(index: &LogIndex, i: usize) -> bool
    requires { i < length index.now }
    ensures { HoldsAt (λ x. result ≡ model.is_commit (entry_of x).kind) index.now i }
{
    index.head(i).kind == COMMIT
}
