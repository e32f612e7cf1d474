// What a record makes of its pages. Nothing is refused from here on.
ghost use Rattle.std.specs.Prelude.{◌≡◌, ◌<◌, ◌≤◌, ◌||◌, ◌==◌, not, ltb, true, length};
ghost use Rattle.page_model.specs.Page.{with_pairs};
ghost use Rattle.page_model.specs.Pairs.{put};
ghost use Rattle.page_model.specs.Redo as asked;
ghost use Rattle.disk_image.specs.image_model.Entries.{written, touches};
ghost use Rattle.disk_image.specs.Records.{entry_of, refs_of};
ghost use Rattle.disk_image.specs.log_record.Spelling.{IsCounted};
ghost use Rattle.disk_image.specs.log_record.Model.{model_ref};
ghost use Rattle.record_redo.specs.Pages.{page_of, pages_of, SameOwn, Keeps, MarksFor};
ghost use Rattle.record_redo.specs.Inside as inside;
ghost use Rattle.record_redo.specs.Inside.{record_in, AreWordsOf, model_refs};

use crate::asks::counted;
use disk_image::{Body, Node, PageRef, Record};

/// Writes and marks each page that stands at its prev.
pub(crate) fn write_all(
    pages: &mut [Node],
    changed: &mut [bool],
    log: u8,
    entry: &Record,
    refs: &[PageRef],
    words: &[u64],
)
    requires marks { length changed.old ≡ length pages.old }
    requires page { inside.is_page entry.now.body ≡ true }
    requires counted { IsCounted entry.now.body }
    requires words { AreWordsOf (record_in entry.now.body).pairs words.now }
    requires refs { model_refs refs.now ≡ refs_of entry.now.body }
    requires below { inside.are_below (length pages.old) (model_refs refs.now) ≡ true }
    requires sayable { inside.is_sayable entry.now.body ≡ true }
    requires can { inside.can_all entry.now.body (pages_of pages.old) (model_refs refs.now) ≡ true }
    ensures after { pages_of pages.new ≡ inside.steps (entry_of log entry.now) (model_refs refs.now) (pages_of pages.old) }
    ensures kept { Keeps pages.old pages.new changed.old changed.new }
    ensures only { MarksFor (λ p. touches p (entry_of log entry.now)) changed.old changed.new }
{
    for i in 0..refs.len() {
        write_one(pages, changed, log, entry, refs[i], words);
    }
}

/// Writes and marks the page, if it stands at its prev.
pub(crate) fn write_one(
    pages: &mut [Node],
    changed: &mut [bool],
    log: u8,
    entry: &Record,
    at: PageRef,
    words: &[u64],
)
    requires marks { length changed.old ≡ length pages.old }
    requires page { inside.is_page entry.now.body ≡ true }
    requires counted { IsCounted entry.now.body }
    requires words { AreWordsOf (record_in entry.now.body).pairs words.now }
    requires among { inside.is_among (refs_of entry.now.body) at.page ≡ true }
    requires below { at.page < length pages.old }
    requires sayable { inside.is_sayable entry.now.body ≡ true }
    requires can { (not (inside.is_at (pages_of pages.old) (model_ref at)) || inside.can_be entry.now.body at.page (pages_of pages.old at.page).node) ≡ true }
    ensures after { pages_of pages.new ≡ inside.step (entry_of log entry.now) (model_ref at) (pages_of pages.old) }
    ensures kept { Keeps pages.old pages.new changed.old changed.new }
    ensures only { MarksFor (λ p. touches p (entry_of log entry.now)) changed.old changed.new }
{
    let place = at.page as usize;
    if pages[place].gsn() != at.prev {
        return;
    }
    write(&mut pages[place], log, entry, at.page, words);
    changed[place] = true;
}

// The page becomes what the record makes of its page, by the record.
fn write(node: &mut Node, log: u8, entry: &Record, page: u32, words: &[u64])
    requires page { inside.is_page entry.now.body ≡ true }
    requires counted { IsCounted entry.now.body }
    requires words { AreWordsOf (record_in entry.now.body).pairs words.now }
    requires among { inside.is_among (refs_of entry.now.body) page ≡ true }
    requires sayable { inside.is_sayable entry.now.body ≡ true }
    requires can { inside.can_be entry.now.body page node.old.node ≡ true }
    ensures written { page_of node.new ≡ written (entry_of log entry.now) page (page_of node.old) }
    ensures own { SameOwn node.old node.new }
{
    make(node, &entry.body, page, words);
    node.set_gsn(entry.gsn);
    node.set_last_log(u32::from(log));
}

// The node becomes what the record makes of it.
fn make(node: &mut Node, body: &Body, page: u32, words: &[u64])
    requires page { inside.is_page body.now ≡ true }
    requires counted { IsCounted body.now }
    requires words { AreWordsOf (record_in body.now).pairs words.now }
    requires among { inside.is_among (refs_of body.now) page ≡ true }
    requires sayable { inside.is_sayable body.now ≡ true }
    requires can { inside.can_be body.now page node.old.node ≡ true }
    ensures { node.new ≡ inside.made body.now page node.old }
{
    match body {
        Body::Change { key, after, .. } | Body::PutBack { key, after, .. } => {
            put(node, *key, *after);
        }
        Body::Split {
            left,
            right,
            separator,
            high,
            level,
            ..
        } => {
            if page == left.page {
                node.cut_from(*separator);
            } else if page == right.page {
                node.fill(*level, *separator, *high, words);
            } else {
                put(node, *separator, u64::from(right.page));
            }
        }
        Body::Join {
            left,
            right: freed,
            separator,
            high,
            ..
        } => {
            if page == left.page {
                node.append(words, *high);
            } else if page == freed.page {
                node.set_free();
            } else {
                node.remove(*separator);
            }
        }
        Body::Lift {
            page: child,
            level,
            ..
        } => {
            if page == 0 {
                let (low, high) = (node.low(), node.high());
                node.fill(*level + 1, low, high, &[0, u64::from(child.page)]);
            } else {
                node.fill(*level, 0, u64::MAX, words);
            }
        }
        Body::DropRoot { level, .. } => {
            if page == 0 {
                let (low, high) = (node.low(), node.high());
                node.fill(*level, low, high, words);
            } else {
                node.set_free();
            }
        }
        Body::Purge { keys, .. } => node.purge(counted(keys)),
        Body::Commit { .. } | Body::Abort { .. } => {}
    }
}

fn put(node: &mut Node, key: u64, word: u64)
    requires above { node.old.node.low ≤ key }
    requires below { key < node.old.node.high }
    requires room { (asked.has_key key node.old.node || ltb (length node.old.node.pairs) 60) ≡ true }
    ensures { node.new ≡ with_pairs node.old (put key word node.old.node.pairs) }
{
    let _ = node.put(key, word);
}
