// The image for which a disk stands, as the plain program has it.
use crate::bodies::{kind_of, set_body};
use crate::engine::Opened;
use log_index::LogIndex;
use master_store::{Body, Node};
use plain_images::{Image, Log, Page, Pair, Record, Ref};
use std::alloc::{AllocError, Global};

const NOWHERE: Ref = Ref { page: 0, prev: 0 };

/// The image for which it stands.
pub fn image_of(alloc: Global, opened: &Opened) -> Result<Image, AllocError> {
    Ok(Image {
        floor: opened.floor,
        logs: logs_of(alloc, opened)?,
        bases: bases_of(alloc, &opened.pages)?,
    })
}

/// The page that stands in a node.
pub fn page_of(alloc: Global, node: &Node) -> Result<Page, AllocError> {
    Ok(Page {
        number: node.gsn(),
        log: node.last_log(),
        node: plain_images::Node {
            live: node.is_live(),
            level: u64::from(node.level()),
            low: node.low(),
            high: node.high(),
            pairs: pairs_in(alloc, node)?,
        },
    })
}

fn pairs_in(alloc: Global, node: &Node) -> Result<Vec<Pair>, AllocError> {
    let mut pairs = Vec::new(alloc);
    for i in 0..node.count() {
        pairs.push(Pair {
            key: node.key_at(i),
            word: node.word_at(i),
        })?;
    }
    Ok(pairs)
}

fn bases_of(alloc: Global, nodes: &[Node]) -> Result<Vec<Option<Page>>, AllocError> {
    let mut bases = Vec::new(alloc);
    for node in nodes {
        bases.push(Some(page_of(alloc, node)?))?;
    }
    Ok(bases)
}

fn logs_of(alloc: Global, opened: &Opened) -> Result<Vec<Log>, AllocError> {
    let mut logs = Vec::new(alloc);
    for log in 1..=opened.logs {
        logs.push(Log {
            records: records_of(alloc, &opened.index, log)?,
        })?;
    }
    Ok(logs)
}

// The records of a log, the newest first.
fn records_of(alloc: Global, index: &LogIndex, log: u32) -> Result<Vec<Record>, AllocError> {
    let mut records = Vec::new(alloc);
    let mut entry = master_store::Record {
        txn: 0,
        gsn: 0,
        body: Body::Commit { need: 0 },
    };
    for i in (0..index.len()).rev() {
        if u32::from(index.head(i).log) == log {
            index.read(i, &mut entry);
            records.push(record_of(alloc, log, &entry)?)?;
        }
    }
    Ok(records)
}

fn record_of(alloc: Global, log: u32, entry: &master_store::Record) -> Result<Record, AllocError> {
    let mut made = Record {
        kind: kind_of(&entry.body),
        log,
        txn: entry.txn,
        number: entry.gsn,
        need: 0,
        refs: Vec::new(alloc),
        left: NOWHERE,
        right: NOWHERE,
        parent: NOWHERE,
        key: 0,
        before: 0,
        after: 0,
        sep: 0,
        high: 0,
        level: 0,
        pairs: Vec::new(alloc),
        keys: Vec::new(alloc),
    };
    set_body(&mut made, &entry.body)?;
    Ok(made)
}
