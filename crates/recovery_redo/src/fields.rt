// Fields of records that not each has: 0 where there is none.
ghost use Rattle.std.specs.Prelude.{◌≡◌};
ghost use Rattle.disk_image.specs.Records as records;

use disk_image::{Body, Record};

/// What an end needs.
pub(crate) fn need_of(entry: &Record) -> u64
    ensures { result ≡ records.need_of entry.now.body }
{
    match &entry.body {
        Body::Commit { need } | Body::Abort { need } => *need,
        _ => 0,
    }
}

/// The key of a write.
pub(crate) fn key_of(entry: &Record) -> u64
    ensures { result ≡ records.key_of entry.now.body }
{
    match &entry.body {
        Body::Change { key, .. } | Body::PutBack { key, .. } => *key,
        _ => 0,
    }
}

/// The word that a write's key had before.
pub(crate) fn before_of(entry: &Record) -> u64
    ensures { result ≡ records.before_of entry.now.body }
{
    match &entry.body {
        Body::Change { before, .. } | Body::PutBack { before, .. } => *before,
        _ => 0,
    }
}
