// What each answer about an image begins with.
ghost use Rattle.std.specs.Prelude.{◌≡◌, IfOk};
ghost use Rattle.image_model.specs.Entries as entries;
ghost use Rattle.plain_images.specs.Records.{kind_of, entry_of};
ghost use Rattle.plain_images.specs.Replayed.{IsReplayed, lost_in};

use crate::ends::{is_ended, reach};
use crate::order::sorted;
use crate::records::{Image, Kind, Record};
use crate::redone::{Redone, counts, redo};
use std::alloc::{AllocError, Global};

/// The records of all logs in order, how far the logs reach, and what redo leaves.
#[derive(Debug, Drop)]
pub(crate) struct Replayed {
    pub records: Vec<Record>,
    pub far: u64,
    pub redone: Redone,
}

// Redo of the image.
pub(crate) fn replay(alloc: Global, image: &Image) -> Result<Replayed, AllocError>
    ensures { IfOk result (λ d. IsReplayed image.now d) }
{
    let logs = image.logs.as_slice();
    let bases = image.bases.as_slice();
    let sorted = sorted(alloc, logs)?;
    let records = sorted.as_slice();
    let far = reach(logs.len(), image.floor, records);
    let redone = redo(alloc, bases, records)?;
    Ok(Replayed {
        records: sorted,
        far,
        redone,
    })
}

// A write that counts, of a transaction that is not ended.
pub(crate) fn is_lost(replayed: &Replayed, entry: &Record) -> bool
    ensures { result ≡ lost_in replayed.now (entry_of entry.now) }
{
    is_write(entry.kind)
        && counts(&replayed.redone.marks, entry.log, entry.number)
        && !is_ended(replayed.far, &replayed.records, entry)
}

fn is_write(kind: Kind) -> bool
    ensures { result ≡ entries.is_write (kind_of kind) }
{
    matches!(kind, Kind::Change | Kind::PutBack)
}
