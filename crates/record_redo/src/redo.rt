// Redo of one record.
ghost use Rattle.std.specs.Prelude.{◌≡◌, ◌≤◌, ◌∷◌, [], true, length, is_some, IfSome, IfNone, IsSome};
ghost use Rattle.disk_image.specs.image_model.Entries.{touches};
ghost use Rattle.disk_image.specs.image_model.Redo as redoing;
ghost use Rattle.disk_image.specs.Formats.{format_of};
ghost use Rattle.disk_image.specs.Records.{entry_of, refs_of};
ghost use Rattle.disk_image.specs.log_record.Spelling.{IsCounted};
ghost use Rattle.disk_image.specs.log_record.Model.{model_ref};
ghost use Rattle.record_redo.specs.Pages.{pages_of, one_redone, Keeps, MarksFor};
ghost use Rattle.record_redo.specs.Inside as inside;
ghost use Rattle.record_redo.specs.Inside.{record_in, AreWordsOf};

use crate::apply::{write_all, write_one};
use crate::asks::{are_met, can_all, can_one, is_met, is_sayable};
use crate::flat::{MOST_WORDS, spell_pairs};
use crate::refs::{are_there, refs_of};
use disk_image::{Body, Node, PageRef, Record};

/// Redoes a record of a log, and marks the pages that it changes. The answer is whether the record counts. None where
/// it names a page that there is not, or counts and can't be done: then nothing has changed.
pub fn redo_record(
    pages: &mut [Node],
    changed: &mut [bool],
    log: u8,
    entry: &Record,
) -> Option<bool>
    requires marks { length changed.old ≡ length pages.old }
    requires counted { IsCounted entry.now.body }
    ensures passes { is_some result ≡ redoing.passes (format_of (length pages.old)) (pages_of pages.old) (entry_of log entry.now) }
    ensures counts { IfSome result (λ counts. counts ≡ redoing.stands (pages_of pages.old) (entry_of log entry.now)) }
    ensures after { IsSome result → pages_of pages.new ≡ one_redone (pages_of pages.old) (entry_of log entry.now) }
    ensures kept { IsSome result → Keeps pages.old pages.new changed.old changed.new }
    ensures only { IsSome result → MarksFor (λ p. touches p (entry_of log entry.now)) changed.old changed.new }
    ensures same { IfNone result ((pages.new ≡ pages.old) × (changed.new ≡ changed.old)) }
{
    match &entry.body {
        Body::Change { leaf, .. } | Body::PutBack { leaf, .. } | Body::Purge { leaf, .. } => {
            redo_leaf(pages, changed, log, entry, *leaf)
        }
        Body::Split { .. } | Body::Lift { .. } | Body::Join { .. } | Body::DropRoot { .. } => {
            redo_structure(pages, changed, log, entry)
        }
        Body::Commit { .. } | Body::Abort { .. } => Some(true),
    }
}

// A record of one page, which has no pairs.
fn redo_leaf(
    pages: &mut [Node],
    changed: &mut [bool],
    log: u8,
    entry: &Record,
    leaf: PageRef,
) -> Option<bool>
    requires marks { length changed.old ≡ length pages.old }
    requires page { inside.is_page entry.now.body ≡ true }
    requires counted { IsCounted entry.now.body }
    requires one { refs_of entry.now.body ≡ model_ref leaf ∷ [] }
    requires pairs { (record_in entry.now.body).pairs ≡ [] }
    ensures passes { is_some result ≡ redoing.passes (format_of (length pages.old)) (pages_of pages.old) (entry_of log entry.now) }
    ensures counts { IfSome result (λ counts. counts ≡ redoing.stands (pages_of pages.old) (entry_of log entry.now)) }
    ensures after { IsSome result → pages_of pages.new ≡ one_redone (pages_of pages.old) (entry_of log entry.now) }
    ensures kept { IsSome result → Keeps pages.old pages.new changed.old changed.new }
    ensures only { IsSome result → MarksFor (λ p. touches p (entry_of log entry.now)) changed.old changed.new }
    ensures same { IfNone result ((pages.new ≡ pages.old) × (changed.new ≡ changed.old)) }
{
    let place = leaf.page as usize;
    if place >= pages.len() {
        return None;
    }
    if !is_met(&pages[place], entry.gsn, leaf.prev) {
        return Some(false);
    }
    if !is_sayable(&entry.body, &[]) {
        return None;
    }
    if !can_one(&pages[place], &entry.body, leaf, &[]) {
        return None;
    }
    write_one(pages, changed, log, entry, leaf, &[]);
    Some(true)
}

// A record of several pages.
fn redo_structure(pages: &mut [Node], changed: &mut [bool], log: u8, entry: &Record) -> Option<bool>
    requires marks { length changed.old ≡ length pages.old }
    requires page { inside.is_page entry.now.body ≡ true }
    requires counted { IsCounted entry.now.body }
    ensures passes { is_some result ≡ redoing.passes (format_of (length pages.old)) (pages_of pages.old) (entry_of log entry.now) }
    ensures counts { IfSome result (λ counts. counts ≡ redoing.stands (pages_of pages.old) (entry_of log entry.now)) }
    ensures after { IsSome result → pages_of pages.new ≡ one_redone (pages_of pages.old) (entry_of log entry.now) }
    ensures kept { IsSome result → Keeps pages.old pages.new changed.old changed.new }
    ensures only { IsSome result → MarksFor (λ p. touches p (entry_of log entry.now)) changed.old changed.new }
    ensures same { IfNone result ((pages.new ≡ pages.old) × (changed.new ≡ changed.old)) }
{
    let mut words = [0; MOST_WORDS];
    let end = spell_pairs(&entry.body, &mut words);
    let named = refs_of(&entry.body);
    redo_pages(
        pages,
        changed,
        log,
        entry,
        &named.refs[..named.count],
        &words[..end],
    )
}

// All tests come before the first write.
fn redo_pages(
    pages: &mut [Node],
    changed: &mut [bool],
    log: u8,
    entry: &Record,
    refs: &[PageRef],
    words: &[u64],
) -> Option<bool>
    requires marks { length changed.old ≡ length pages.old }
    requires page { inside.is_page entry.now.body ≡ true }
    requires counted { IsCounted entry.now.body }
    requires words { AreWordsOf (record_in entry.now.body).pairs words.now }
    requires refs { inside.model_refs refs.now ≡ refs_of entry.now.body }
    ensures passes { is_some result ≡ redoing.passes (format_of (length pages.old)) (pages_of pages.old) (entry_of log entry.now) }
    ensures counts { IfSome result (λ counts. counts ≡ redoing.stands (pages_of pages.old) (entry_of log entry.now)) }
    ensures after { IsSome result → pages_of pages.new ≡ one_redone (pages_of pages.old) (entry_of log entry.now) }
    ensures kept { IsSome result → Keeps pages.old pages.new changed.old changed.new }
    ensures only { IsSome result → MarksFor (λ p. touches p (entry_of log entry.now)) changed.old changed.new }
    ensures same { IfNone result ((pages.new ≡ pages.old) × (changed.new ≡ changed.old)) }
{
    if !are_there(pages.len(), refs) {
        return None;
    }
    if !are_met(pages, entry.gsn, refs) {
        return Some(false);
    }
    if !is_sayable(&entry.body, words) {
        return None;
    }
    if !can_all(pages, &entry.body, refs, words) {
        return None;
    }
    write_all(pages, changed, log, entry, refs, words);
    Some(true)
}
