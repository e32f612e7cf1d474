// Redo: which records count, and what they make of the pages.
ghost use Rattle.std.specs.Prelude.{◌≡◌, ◌<◌, ℕ, length, is_some, IfSome, IsSome, OnOk, Err, HoldsAt};
ghost use Rattle.disk_image.specs.image_model.Entries.{touches};
ghost use Rattle.disk_image.specs.image_model.Redo as redoing;
ghost use Rattle.disk_image.specs.Formats.{format_of};
ghost use Rattle.record_redo.specs.Pages.{pages_of, one_redone, Keeps, MarksFor};
ghost use Rattle.recovery_scan.specs.Records.{entry_of, entries_of};
ghost use Rattle.recovery_redo.specs.Inside as inside;

use crate::kinds::is_end;
use crate::recover::{Failed, damaged_by};
use disk_image::{Node, Record};
use log_index::LogIndex;
use record_redo::redo_record;

/// Redoes the records in turn, and marks those that count. The first that can't be done is told.
pub(crate) fn redo(
    pages: &mut [Node],
    changed: &mut [bool],
    counted: &mut [bool],
    index: &LogIndex,
    entry: &mut Record,
) -> Result<(), Failed>
    requires marks { length changed.old ≡ length pages.old }
    requires flags { length counted.old ≡ length index.now }
    ensures redone { OnOk result (inside.IsRedone pages.old pages.new index.now counted.new (length index.now)) }
    ensures kept { OnOk result (Keeps pages.old pages.new changed.old changed.new) }
    ensures only { OnOk result (MarksFor (inside.is_named (entries_of index.now)) changed.old changed.new) }

    ensures cause { (a place : ℕ) → result ≡ Err (Failed.Damaged a place) → inside.FailsAt pages.old index.now a place }
{
    for i in 0..index.len() {
        let Some(counts) = redo_one(pages, changed, index, i, entry) else {
            return Err(damaged_by(index, i));
        };
        counted[i] = counts;
    }
    Ok(())
}

// Whether the record counts; none where it can't be done. An end counts, and changes nothing.
fn redo_one(
    pages: &mut [Node],
    changed: &mut [bool],
    index: &LogIndex,
    i: usize,
    entry: &mut Record,
) -> Option<bool>
    requires within { i < length index.now }
    requires marks { length changed.old ≡ length pages.old }
    ensures passes { HoldsAt (λ x. is_some result ≡ redoing.passes (format_of (length pages.old)) (pages_of pages.old) (entry_of x)) index.now i }
    ensures counts { IfSome result (λ counts. HoldsAt (λ x. counts ≡ redoing.stands (pages_of pages.old) (entry_of x)) index.now i) }
    ensures after { IsSome result → HoldsAt (λ x. pages_of pages.new ≡ one_redone (pages_of pages.old) (entry_of x)) index.now i }
    ensures kept { IsSome result → Keeps pages.old pages.new changed.old changed.new }
    ensures only { IsSome result → HoldsAt (λ x. MarksFor (λ p. touches p (entry_of x)) changed.old changed.new) index.now i }
{
    if is_end(index, i) {
        return Some(true);
    }
    index.read(i, entry);
    redo_record(pages, changed, index.head(i).log, entry)
}
