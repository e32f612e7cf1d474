// The pages that recovery gives, from their bases and the records of all logs.
ghost use Rattle.std.specs.Prelude.{◌≡◌, ◌<◌, ◌≤◌, ℕ, suc, Err, IfOk, OnOk, HoldsAt, false, length, replicate, slice_get, slice_index_or, true};
ghost use Rattle.page_model.specs.Tree.{IsTree};
ghost use Rattle.disk_image.specs.disk_slots.declared.master.Master.{Master};
ghost use Rattle.disk_image.specs.Breaks.{Breaks};
ghost use Rattle.disk_image.specs.Formats.{format_of};
ghost use Rattle.disk_image.specs.Shown.{Areas};
ghost use Rattle.node_tree.specs.Nodes.{nodes_of};
ghost use Rattle.record_redo.specs.Pages.{pages_of, Keeps, MarksFor};
ghost use Rattle.recovery_scan.specs.Records.{entries_of};
ghost use Rattle.recovery_scan.specs.Scans.{AreOfLogs};
ghost use Rattle.recovery_redo.specs.Recoveries.{IsLoaded, IsRecovered, KeepsOwn, is_meant};
ghost use Rattle.recovery_redo.specs.Inside as inside;

use crate::outcome::{ended, losers, reach, top, winners};
use crate::redo::redo;
use crate::undo::undo;
use disk_image::{Body, Node, Record};
use log_index::LogIndex;
use node_tree::first_break;
use page_model::every_check;
use std::alloc::{AllocError, Global};

/// The area of the pages. That of a log is one more than its number.
const PAGES: u32 = 1;

/// How many transactions won and how many were undone, the base number, and a mark for each page that may have changed.
#[derive(Drop)]
pub struct Outcome {
    pub winners: u64,
    pub undone: u64,
    pub base: u64,
    pub changed: Vec<bool>,
}

/// Why the pages could not be recovered.
#[derive(Clone, Copy, Debug, PartialEq, Eq)]
pub enum Failed {
    /// This page, or a record in the block at this place of this log's area, breaks a rule.
    Damaged { area: u32, place: u64 },
    Memory,
}

/// Redoes the records, oldest first, checks the tree, and undoes what was lost, newest first.
pub fn recover_pages(
    alloc: Global,
    pages: &mut [Node],
    index: &LogIndex,
    logs: u32,
    floor: u64,
) -> Result<Outcome, Failed>
    requires logs { (0 < logs) × (logs ≤ 16) }
    requires of_logs { AreOfLogs logs index.now }
    ensures recovered { IfOk result (λ outcome. (m : Master) (area : Areas) → IsLoaded m area pages.old index.now logs floor → IsRecovered m area pages.old pages.new outcome) }
    ensures tree { OnOk result (IsTree (format_of (length pages.new)) (nodes_of pages.new)) }
    ensures own { OnOk result (KeepsOwn pages.old pages.new) }
    ensures numbers { IfOk result (λ outcome. (p : ℕ) → p < length pages.new → (pages_of pages.new p).gsn ≤ outcome.base) }

    // A page that is not marked is as it was, and one is marked only where a record is about it.
    ensures marks { IfOk result (λ outcome. length outcome.changed.items ≡ length pages.old) }
    ensures same { IfOk result (λ outcome. (p : ℕ) → slice_index_or outcome.changed.items p false ≡ false → slice_get pages.new p ≡ slice_get pages.old p) }
    ensures only { IfOk result (λ outcome. (p : ℕ) → slice_index_or outcome.changed.items p false ≡ true → is_meant index.now (nodes_of pages.new) p ≡ true) }

    ensures cause_damaged { (a place : ℕ) → result ≡ Err (Failed.Damaged a place) → (m : Master) (area : Areas) → IsLoaded m area pages.old index.now logs floor → Breaks m area a place }
{
    let logs = logs as usize;
    let far = reach(logs, floor, index);
    let base = base_number(top(floor, index), pages);
    let mut entry = Record {
        txn: 0,
        gsn: 0,
        body: Body::Commit { need: 0 },
    };
    let Ok(mut changed) = unmarked(alloc, pages.len()) else {
        return Err(Failed::Memory);
    };
    let counted = redo_all(alloc, pages, &mut changed, index, &mut entry)?;
    check_tree(alloc, pages)?;
    let Ok(ended) = ended(alloc, logs, far, index, &mut entry) else {
        return Err(Failed::Memory);
    };
    let Ok(undone) = losers(alloc, &ended, index) else {
        return Err(Failed::Memory);
    };
    undo(pages, &mut changed, &counted, &ended, index, &mut entry)?;
    Ok(Outcome {
        winners: winners(far, index, &mut entry),
        undone,
        base,
        changed,
    })
}

/// The record can't be done, or not be undone.
pub(crate) fn damaged_by(index: &LogIndex, i: usize) -> Failed
    requires { i < length index.now }
    ensures { HoldsAt (λ x. result ≡ Failed.Damaged (suc x.log) x.place) index.now i }
{
    let head = index.head(i);
    Failed::Damaged {
        area: 1 + u32::from(head.log),
        place: u64::from(head.place),
    }
}

// The greatest of a number and the numbers of pages.
fn base_number(top: u64, pages: &[Node]) -> u64
    ensures { inside.IsAtop top pages.now result }
{
    let mut most = top;
    for node in pages {
        most = most.max(node.gsn());
    }
    most
}

// A row without marks.
fn unmarked(alloc: Global, count: usize) -> Result<Vec<bool>, AllocError>
    ensures { IfOk result (λ row. row.items ≡ replicate count false) }
{
    vec![in alloc; false; count]
}

// Redoes the records, with a mark for each that counts.
fn redo_all(
    alloc: Global,
    pages: &mut [Node],
    changed: &mut [bool],
    index: &LogIndex,
    entry: &mut Record,
) -> Result<Vec<bool>, Failed>
    requires marks { length changed.old ≡ length pages.old }
    ensures redone { IfOk result (λ counted. inside.IsRedone pages.old pages.new index.now counted.items (length index.now)) }
    ensures flags { IfOk result (λ counted. length counted.items ≡ length index.now) }
    ensures kept { OnOk result (Keeps pages.old pages.new changed.old changed.new) }
    ensures only { OnOk result (MarksFor (inside.is_named (entries_of index.now)) changed.old changed.new) }

    ensures cause { (a place : ℕ) → result ≡ Err (Failed.Damaged a place) → inside.FailsAt pages.old index.now a place }
{
    let Ok(mut counted) = unmarked(alloc, index.len()) else {
        return Err(Failed::Memory);
    };
    redo(pages, changed, &mut counted, index, entry)?;
    Ok(counted)
}

// The pages are a tree; where there are none, they are not.
fn check_tree(alloc: Global, pages: &[Node]) -> Result<(), Failed>
    ensures tree { OnOk result (IsTree (format_of (length pages.now)) (nodes_of pages.now)) }

    ensures cause { (a page : ℕ) → result ≡ Err (Failed.Damaged a page) → 0 < length pages.now → (a ≡ 1) × inside.BreaksAt pages.now page }
{
    every_check();
    if pages.is_empty() {
        return Err(Failed::Damaged {
            area: PAGES,
            place: 0,
        });
    }
    match first_break(alloc, pages) {
        Ok(None) => Ok(()),
        Ok(Some(page)) => Err(Failed::Damaged {
            area: PAGES,
            place: page as u64,
        }),
        Err(_) => Err(Failed::Memory),
    }
}
