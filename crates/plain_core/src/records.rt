// Pages, and the entries of what happened.
ghost use Rattle.std.specs.Prelude.{◌≡◌, ◌∷◌, map, IfOk};
ghost use Rattle.core_state.specs.Steps as steps;
ghost use Rattle.plain_images.specs.Pages.{pair_of};
ghost use Rattle.plain_core.specs.Records.{node_of, page_of, record_of, entry_of, entries_of};

use crate::refusal::Refusal;
use plain_images::Pair;
use std::alloc::{AllocError, Global};

/// A node, or a free page, which is not live and has nothing else.
#[derive(Drop)]
pub struct Node {
    pub live: bool,
    pub level: u64,
    pub low: u64,
    pub high: u64,
    pub pairs: Vec<Pair>,
}

impl Node {
    /// The node again.
    pub fn copy(&self, alloc: Global) -> Result<Node, AllocError>
        ensures { IfOk result (λ v. node_of v ≡ node_of self.now) }
    {
        Ok(Node {
            live: self.live,
            level: self.level,
            low: self.low,
            high: self.high,
            pairs: Vec::from_slice(alloc, &self.pairs)?,
        })
    }
}

/// A page with the number and the log of the last record that changed it.
#[derive(Drop)]
pub struct Page {
    pub number: u64,
    pub log: u64,
    pub node: Node,
}

impl Page {
    /// The page again.
    pub fn copy(&self, alloc: Global) -> Result<Page, AllocError>
        ensures { IfOk result (λ v. page_of v ≡ page_of self.now) }
    {
        Ok(Page {
            number: self.number,
            log: self.log,
            node: self.node.copy(alloc)?,
        })
    }

    /// The page with these pairs.
    pub fn with_pairs(&self, alloc: Global, pairs: &[Pair]) -> Result<Page, AllocError>
        ensures { IfOk result (λ v. page_of v ≡ steps.with_pairs (map pair_of pairs.now) (page_of self.now)) }
    {
        Ok(Page {
            number: self.number,
            log: self.log,
            node: self.node.with_pairs(Vec::from_slice(alloc, pairs)?),
        })
    }
}

/// A page that a record changes, with the page's number before it.
#[derive(Clone, Copy)]
pub struct Ref {
    pub page: u64,
    pub previous: u64,
}

/// The seven records that change pages.
#[derive(Clone, Copy)]
pub enum PageKind {
    Change,
    PutBack,
    Split,
    Lift,
    Join,
    Drop,
    Purge,
}

/// What a record makes of its pages. What a kind does not have is 0.
#[derive(Drop)]
pub struct PageRecord {
    pub kind: PageKind,
    pub left: Ref,
    pub right: Ref,
    pub parent: Ref,
    pub key: u64,
    pub before: u64,
    pub after: u64,
    pub separator: u64,
    pub high: u64,
    pub level: u64,
    pub pairs: Vec<Pair>,
    pub keys: Vec<u64>,
}

impl PageRecord {
    /// The record again.
    pub fn copy(&self, alloc: Global) -> Result<PageRecord, AllocError>
        ensures { IfOk result (λ v. record_of v ≡ record_of self.now) }
    {
        Ok(PageRecord {
            kind: self.kind,
            left: self.left,
            right: self.right,
            parent: self.parent,
            key: self.key,
            before: self.before,
            after: self.after,
            separator: self.separator,
            high: self.high,
            level: self.level,
            pairs: Vec::from_slice(alloc, &self.pairs)?,
            keys: Vec::from_slice(alloc, &self.keys)?,
        })
    }
}

/// The nine kinds of record, and a read, which stands in no log.
#[derive(Clone, Copy, PartialEq, Eq)]
pub enum Kind {
    Change,
    PutBack,
    Split,
    Lift,
    Join,
    Drop,
    Purge,
    Read,
    Commit,
    Abort,
}

/// A record of a log, or a read.
#[derive(Drop)]
pub struct Entry {
    pub kind: Kind,
    pub log: u64,
    pub txn: u64,
    pub number: u64,
    pub key: u64,
    pub before: u64,
    pub after: u64,
    pub need: u64,
    pub refs: Vec<Ref>,
    pub page_record: PageRecord,
}

impl Entry {
    /// The entry again.
    pub fn copy(&self, alloc: Global) -> Result<Entry, AllocError>
        ensures { IfOk result (λ v. entry_of v ≡ entry_of self.now) }
    {
        Ok(Entry {
            kind: self.kind,
            log: self.log,
            txn: self.txn,
            number: self.number,
            key: self.key,
            before: self.before,
            after: self.after,
            need: self.need,
            refs: Vec::from_slice(alloc, &self.refs)?,
            page_record: self.page_record.copy(alloc)?,
        })
    }
}

/// The entries again.
pub fn copy_entries(alloc: Global, entries: &[Entry]) -> Result<Vec<Entry>, AllocError>
    ensures { IfOk result (λ v. entries_of v.items ≡ entries_of entries.now) }
{
    let mut copies = Vec::new(alloc);
    for entry in entries {
        copies.push(entry.copy(alloc)?)?;
    }
    Ok(copies)
}
