// The image of the disk after a crash.
use crate::crashes::is_in_log;
use crate::runs::Run;
use plain_images::{Image, Log, Record};
use std::alloc::{AllocError, Global};

/// The floor, of each log the records that are left from its head on, and of each page the contents that are left.
pub fn image_of(alloc: Global, run: &Run, crash: &[usize]) -> Result<Image, AllocError> {
    let workers = run.core.settings.workers;
    let mut logs = Vec::new(alloc);
    for (log, count) in (1..=workers).zip(crash) {
        logs.push(log_of(alloc, run, log, *count)?)?;
    }
    let mut bases = Vec::new(alloc);
    for place in crash.iter().skip(workers as usize) {
        if let Some(version) = run.versions.get(*place) {
            bases.push(Some(page_of(alloc, &version.made)?))?;
        }
    }
    Ok(Image {
        floor: run.core.floor,
        logs,
        bases,
    })
}

// The oldest records of a log, the newest of them first.
fn log_of(alloc: Global, run: &Run, log: u64, count: usize) -> Result<Log, AllocError> {
    let head = *run.core.heads.get(log);
    let mut records = Vec::new(alloc);
    for entry in run.core.entries.iter().rev() {
        if is_in_log(entry, log, head) && records.len() < count {
            records.insert(0, record_of(alloc, entry)?)?;
        }
    }
    Ok(Log { records })
}

fn page_of(alloc: Global, page: &plain_core::Page) -> Result<plain_images::Page, AllocError> {
    Ok(plain_images::Page {
        number: page.number,
        log: small(page.log),
        node: plain_images::Node {
            live: page.node.live,
            level: page.node.level,
            low: page.node.low,
            high: page.node.high,
            pairs: Vec::from_slice(alloc, &page.node.pairs)?,
        },
    })
}

fn record_of(alloc: Global, entry: &plain_core::Entry) -> Result<Record, AllocError> {
    let made = &entry.page_record;
    let mut refs = Vec::new(alloc);
    for one in &entry.refs {
        refs.push(ref_of(*one))?;
    }
    Ok(Record {
        kind: kind_of(entry.kind),
        log: small(entry.log),
        txn: entry.txn,
        number: entry.number,
        need: entry.need,
        refs,
        left: ref_of(made.left),
        right: ref_of(made.right),
        parent: ref_of(made.parent),
        key: entry.key,
        before: entry.before,
        after: entry.after,
        sep: made.separator,
        high: made.high,
        level: small(made.level),
        pairs: Vec::from_slice(alloc, &made.pairs)?,
        keys: Vec::from_slice(alloc, &made.keys)?,
    })
}

// Reads stand in no log, so their kind is never asked for.
fn kind_of(kind: plain_core::Kind) -> plain_images::Kind {
    match kind {
        plain_core::Kind::Change => plain_images::Kind::Change,
        plain_core::Kind::PutBack => plain_images::Kind::PutBack,
        plain_core::Kind::Split => plain_images::Kind::Split,
        plain_core::Kind::Lift => plain_images::Kind::Lift,
        plain_core::Kind::Join => plain_images::Kind::Join,
        plain_core::Kind::Drop => plain_images::Kind::Drop,
        plain_core::Kind::Purge | plain_core::Kind::Read => plain_images::Kind::Purge,
        plain_core::Kind::Commit => plain_images::Kind::Commit,
        plain_core::Kind::Abort => plain_images::Kind::Abort,
    }
}

fn ref_of(one: plain_core::Ref) -> plain_images::Ref {
    plain_images::Ref {
        page: one.page,
        prev: one.previous,
    }
}

// Logs and levels of the lists are small.
fn small(number: u64) -> u32 {
    u32::try_from(number).unwrap_or(u32::MAX)
}
