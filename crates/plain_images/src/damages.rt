// Which rule an image breaks.
ghost use Rattle.std.specs.Prelude.{◌≡◌, ℕ, suc, length, map, Some, None, IfOk};
ghost use Rattle.page_model.specs.Check as check;
ghost use Rattle.image_model.specs.Images as images;
ghost use Rattle.image_model.specs.Damage as rules;
ghost use Rattle.image_model.specs.Undo as undoing;
ghost use Rattle.page_model.specs.Tree as tree;
ghost use Rattle.page_model.specs.Redo.{is_some};
ghost use Rattle.image_model.specs.Entries as entries;
ghost use Rattle.plain_images.specs.Pages.{node_of, format_of};
ghost use Rattle.plain_images.specs.Records.{entry_of, entries_of};
ghost use Rattle.plain_images.specs.Images.{base_or, base_of, bases_of, log_of, image_of, redone_of};
ghost use Rattle.plain_images.specs.Replayed.{lost_in};
ghost use Rattle.plain_images.specs.Damages.{told, missing_base, is_above, unordered, unordered_in, undoable, undoable_in, broken, without, without_in, taken};

use crate::checks::passes;
use crate::leaves::entry;
use crate::pages::Node;
use crate::records::{Image, Log, Page, Record};
use crate::redone::{Redone, page_at, redo};
use crate::replayed::{Replayed, is_lost, replay};
use crate::tree::first_break;
use std::alloc::{AllocError, Global};

/// What breaks a rule of an image.
#[derive(Clone, Copy, Debug, PartialEq, Eq)]
pub enum Damage {
    /// A page without a base.
    NoBase { page: usize },
    /// A record that is not above those before it in its log.
    Unordered { log: u32, number: u64 },
    /// A record that names a page that there is not, or counts and can't be done.
    Undoable { log: u32, number: u64 },
    /// A page that breaks the tree.
    Broken { page: usize },
    /// A record whose key can't be put back.
    NoEntry { log: u32, number: u64 },
}

/// The first rule that the image breaks: bases by page, the logs in turn, records by number and log, the tree by page, and what is
/// put back in falling order. An image that has a page has none exactly where it is sound.
///
/// # Errors
/// Where memory runs out.
pub fn first_damage(alloc: Global, image: &Image) -> Result<Option<Damage>, AllocError>
    ensures { IfOk result (λ o. told o ≡ rules.damage (image_of image.now)) }
{
    let replayed = replay(alloc, image)?;
    let logs = image.logs.as_slice();
    let bases = image.bases.as_slice();
    let undoable = first_undoable(alloc, bases, &replayed.records)?;
    let broken = first_broken(alloc, bases, &replayed.redone)?;
    let lacking = first_lacking(alloc, bases, &replayed)?;
    let late = or_first(undoable, or_first(broken, lacking));
    Ok(or_first(first_missing(bases), or_first(first_unordered(logs), late)))
}

fn or_first(first: Option<Damage>, other: Option<Damage>) -> Option<Damage>
    ensures { told result ≡ rules.or_first (told first) (told other) }
{
    match first {
        Some(damage) => Some(damage),
        None => other,
    }
}

// The least page without a base.
fn first_missing(bases: &[Option<Page>]) -> Option<Damage>
    ensures { told result ≡ missing_base (length bases.now) (base_of bases.now) }
{
    match least_missing(bases) {
        Some(page) => Some(Damage::NoBase { page }),
        None => None,
    }
}

fn least_missing(bases: &[Option<Page>]) -> Option<usize>
    ensures { result ≡ check.first_bad (length bases.now) (λ (p : ℕ). images.has_base (base_of bases.now p)) }
{
    let mut first: Option<usize> = None;
    for page in 0..bases.len() {
        if first.is_none() && !has_base(bases, page) {
            first = Some(page);
        }
    }
    first
}

fn has_base(bases: &[Option<Page>], page: usize) -> bool
    ensures { result ≡ images.has_base (base_of bases.now page) }
{
    match bases.get(page) {
        Some(base) => is_there(base),
        None => false,
    }
}

fn is_there(base: &Option<Page>) -> bool
    ensures { result ≡ images.has_base (base_or (Some base.now)) }
{
    base.is_some()
}

// The logs in turn.
fn first_unordered(logs: &[Log]) -> Option<Damage>
    ensures { told result ≡ rules.first_in_logs (λ w. unordered_in (log_of logs.now w)) (length logs.now) }
{
    let mut first: Option<Damage> = None;
    for place in 0..logs.len() {
        first = or_first(first, unordered_of(logs, place));
    }
    first
}

fn unordered_of(logs: &[Log], place: usize) -> Option<Damage>
    ensures { (w : ℕ) → w ≡ suc place → told result ≡ unordered_in (log_of logs.now w) }
{
    match logs.get(place) {
        Some(log) => unordered_among(&log.records),
        None => None,
    }
}

// The first in time that is not above those before it.
fn unordered_among(log: &[Record]) -> Option<Damage>
    ensures { told result ≡ unordered_in (entries_of log.now) }
{
    let mut first: Option<Damage> = None;
    let mut left = log.len();
    while left > 0 {
        left -= 1;
        let found = unless_above(&log[left], &log[left + 1..]);
        first = or_first(first, found);
    }
    first
}

fn unless_above(entry: &Record, before: &[Record]) -> Option<Damage>
    ensures { told result ≡ unordered (entry_of entry.now) (entries_of before.now) }
{
    if is_above(entry, before) {
        return None;
    }
    Some(Damage::Unordered {
        log: entry.log,
        number: entry.number,
    })
}

fn is_above(entry: &Record, before: &[Record]) -> bool
    ensures { result ≡ is_above (entry_of entry.now) (entries_of before.now) }
{
    for other in before {
        if other.number >= entry.number {
            return false;
        }
    }
    true
}

// The first in time that can't be done.
fn first_undoable(
    alloc: Global,
    bases: &[Option<Page>],
    records: &[Record],
) -> Result<Option<Damage>, AllocError>
    ensures { IfOk result (λ o. told o ≡ undoable_in (format_of (length bases.now)) (bases_of bases.now) (entries_of records.now)) }
{
    let mut first: Option<Damage> = None;
    let mut left = records.len();
    while left > 0 {
        left -= 1;
        let found = unless_done(alloc, bases, &records[left], &records[left + 1..])?;
        first = or_first(first, found);
    }
    Ok(first)
}

fn unless_done(
    alloc: Global,
    bases: &[Option<Page>],
    entry: &Record,
    before: &[Record],
) -> Result<Option<Damage>, AllocError>
    ensures { IfOk result (λ o. told o ≡ undoable (format_of (length bases.now)) (bases_of bases.now) (entry_of entry.now) (entries_of before.now)) }
{
    let redone = redo(alloc, bases, before)?;
    let placed = redone.placed.as_slice();
    if passes(alloc, bases.len(), bases, placed, entry)? {
        return Ok(None);
    }
    Ok(Some(Damage::Undoable {
        log: entry.log,
        number: entry.number,
    }))
}

// The least page that breaks the tree.
fn first_broken(
    alloc: Global,
    bases: &[Option<Page>],
    redone: &Redone,
) -> Result<Option<Damage>, AllocError>
    ensures { IfOk result (λ o. told o ≡ broken (format_of (length bases.now)) (undoing.nodes_of (redone_of bases.now redone.now))) }
{
    let nodes = nodes_in(alloc, bases, redone)?;
    match first_break(&nodes) {
        Some(page) => Ok(Some(Damage::Broken { page })),
        None => Ok(None),
    }
}

fn nodes_in(alloc: Global, bases: &[Option<Page>], redone: &Redone) -> Result<Vec<Node>, AllocError>
    ensures { IfOk result (λ v. map node_of v.items ≡ taken (length bases.now) (undoing.nodes_of (redone_of bases.now redone.now))) }
{
    let mut nodes = Vec::new(alloc);
    for place in 0..bases.len() {
        let page = page_at(alloc, bases, &redone.placed, place as u64)?;
        nodes.push(page.node)?;
    }
    Ok(nodes)
}

// The first in the list that can't be put back.
fn first_lacking(
    alloc: Global,
    bases: &[Option<Page>],
    replayed: &Replayed,
) -> Result<Option<Damage>, AllocError>
    ensures { let d = redone_of bases.now replayed.now.redone in IfOk result (λ o. told o ≡ without_in (lost_in replayed.now) (λ k. is_some (tree.entry (length bases.now) (undoing.nodes_of d) k)) (entries_of replayed.now.records.items)) }
{
    let mut first: Option<Damage> = None;
    let mut left = replayed.records.len();
    while left > 0 {
        left -= 1;
        let found = unless_back(alloc, bases, replayed, &replayed.records[left])?;
        first = or_first(found, first);
    }
    Ok(first)
}

fn unless_back(
    alloc: Global,
    bases: &[Option<Page>],
    replayed: &Replayed,
    entry: &Record,
) -> Result<Option<Damage>, AllocError>
    ensures { let d = redone_of bases.now replayed.now.redone in IfOk result (λ o. told o ≡ without (lost_in replayed.now) (λ k. is_some (tree.entry (length bases.now) (undoing.nodes_of d) k)) (entry_of entry.now)) }
{
    let lost = is_lost(replayed, entry);
    let there = has_entry(alloc, bases, &replayed.redone, entry.key)?;
    Ok(unless_there(lost, there, entry))
}

fn has_entry(
    alloc: Global,
    bases: &[Option<Page>],
    redone: &Redone,
    key: u64,
) -> Result<bool, AllocError>
    ensures { IfOk result (λ b. b ≡ is_some (tree.entry (length bases.now) (undoing.nodes_of (redone_of bases.now redone.now)) key)) }
{
    match entry(alloc, bases, redone, key)? {
        Some(_) => Ok(true),
        None => Ok(false),
    }
}

fn unless_there(lost: bool, there: bool, entry: &Record) -> Option<Damage>
    ensures { told result ≡ without (λ (_ : entries.Entry). lost) (λ (_ : ℕ). there) (entry_of entry.now) }
{
    if !lost || there {
        return None;
    }
    Some(Damage::NoEntry {
        log: entry.log,
        number: entry.number,
    })
}
