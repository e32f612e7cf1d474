// Records and pages as the plain program has them.
use crate::pages::{Node, Pair};

/// The kinds of record that stand in a log.
#[derive(Clone, Copy, Debug, PartialEq, Eq)]
pub enum Kind {
    Change,
    PutBack,
    Split,
    Lift,
    Join,
    Drop,
    Purge,
    Commit,
    Abort,
}

/// A page that a record changes, with the page's number before it.
#[derive(Clone, Copy, Debug, PartialEq, Eq)]
pub struct Ref {
    pub page: u64,
    pub prev: u64,
}

/// A record of a log. What its kind does not have is 0 or empty: `need` is of ends, `key`, `before` and `after` are of writes,
/// `keys` of purges, and the others of what changes the tree.
#[derive(Debug, Drop)]
pub struct Record {
    pub kind: Kind,
    pub log: u32,
    pub txn: u64,
    pub number: u64,
    pub need: u64,
    pub refs: Vec<Ref>,
    pub left: Ref,
    pub right: Ref,
    pub parent: Ref,
    pub key: u64,
    pub before: u64,
    pub after: u64,
    pub sep: u64,
    pub high: u64,
    pub level: u32,
    pub pairs: Vec<Pair>,
    pub keys: Vec<u64>,
}

/// A page, with the number and the log of the last record that changed it.
#[derive(Debug, Drop)]
pub struct Page {
    pub number: u64,
    pub log: u32,
    pub node: Node,
}

/// A log: the records of its longest run, the newest first.
#[derive(Debug, Drop)]
pub struct Log {
    pub records: Vec<Record>,
}

/// An image of the disk: its master's floor, its logs from the first on, and the base of each page, where it has one.
#[derive(Debug, Drop)]
pub struct Image {
    pub floor: u64,
    pub logs: Vec<Log>,
    pub bases: Vec<Option<Page>>,
}
