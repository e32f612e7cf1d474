// What a record makes of one of its pages.
ghost use Rattle.std.specs.Prelude.{◌≡◌, IfOk};
ghost use Rattle.page_model.specs.Nodes as nodes;
ghost use Rattle.page_model.specs.Records as records;
ghost use Rattle.image_model.specs.Entries as entries;
ghost use Rattle.plain_images.specs.Pages.{node_of};
ghost use Rattle.plain_images.specs.Records.{kind_of, record_of, entry_of};

use crate::pages::{Node, Pair};
use crate::pairs::{below, joined, others, put, without};
use crate::records::{Kind, Record};
use std::alloc::{AllocError, Global};

/// What the record makes of its page, a node or a free one. A page that it does not change stays as it is.
///
/// # Errors
/// Where memory runs out.
pub fn applied(alloc: Global, entry: &Record, page: u64, node: &Node) -> Result<Node, AllocError>
    ensures { IfOk result (λ v. node_of v ≡ entries.applied_as (kind_of entry.now.kind) (entry_of entry.now) page (node_of node.now)) }
{
    match entry.kind {
        Kind::Change | Kind::PutBack => write(alloc, entry, page, node),
        Kind::Split => split(alloc, entry, page, node),
        Kind::Lift => lift(alloc, entry, page, node),
        Kind::Join => join(alloc, entry, page, node),
        Kind::Drop => drop_root(alloc, entry, page, node),
        // an end has no page and no keys
        Kind::Purge | Kind::Commit | Kind::Abort => purge(alloc, entry, page, node),
    }
}

fn write(alloc: Global, entry: &Record, page: u64, node: &Node) -> Result<Node, AllocError>
    ensures { IfOk result (λ v. node_of v ≡ records.applied_as records.Kind.Change (record_of entry.now) page (node_of node.now)) }
{
    if page == entry.left.page {
        let pairs = put(alloc, &node.pairs, entry.key, entry.after)?;
        return Ok(with_pairs(node, pairs));
    }
    copy_of(alloc, node)
}

fn split(alloc: Global, entry: &Record, page: u64, node: &Node) -> Result<Node, AllocError>
    ensures { IfOk result (λ v. node_of v ≡ records.applied_as records.Kind.Split (record_of entry.now) page (node_of node.now)) }
{
    if page == entry.left.page {
        let pairs = below(alloc, &node.pairs, entry.sep)?;
        return Ok(Node {
            live: node.live,
            level: node.level,
            low: node.low,
            high: entry.sep,
            pairs,
        });
    }
    if page == entry.right.page {
        let pairs = Vec::from_slice(alloc, &entry.pairs)?;
        return Ok(Node {
            live: true,
            level: u64::from(entry.level),
            low: entry.sep,
            high: entry.high,
            pairs,
        });
    }
    if page == entry.parent.page {
        let pairs = put(alloc, &node.pairs, entry.sep, entry.right.page)?;
        return Ok(with_pairs(node, pairs));
    }
    copy_of(alloc, node)
}

fn join(alloc: Global, entry: &Record, page: u64, node: &Node) -> Result<Node, AllocError>
    ensures { IfOk result (λ v. node_of v ≡ records.applied_as records.Kind.Join (record_of entry.now) page (node_of node.now)) }
{
    if page == entry.left.page {
        let pairs = joined(alloc, &node.pairs, &entry.pairs)?;
        return Ok(Node {
            live: node.live,
            level: node.level,
            low: node.low,
            high: entry.high,
            pairs,
        });
    }
    if page == entry.right.page {
        return Ok(free(alloc));
    }
    if page == entry.parent.page {
        let pairs = without(alloc, &node.pairs, entry.sep)?;
        return Ok(with_pairs(node, pairs));
    }
    copy_of(alloc, node)
}

fn lift(alloc: Global, entry: &Record, page: u64, node: &Node) -> Result<Node, AllocError>
    ensures { IfOk result (λ v. node_of v ≡ records.applied_as records.Kind.Lift (record_of entry.now) page (node_of node.now)) }
{
    if page == 0 {
        let mut pairs = Vec::new(alloc);
        pairs.push(Pair {
            key: 0,
            word: entry.right.page,
        })?;
        return Ok(Node {
            live: node.live,
            level: u64::from(entry.level) + 1,
            low: node.low,
            high: node.high,
            pairs,
        });
    }
    if page == entry.right.page {
        let pairs = Vec::from_slice(alloc, &entry.pairs)?;
        return Ok(Node {
            live: true,
            level: u64::from(entry.level),
            low: 0,
            high: entry.high,
            pairs,
        });
    }
    copy_of(alloc, node)
}

fn drop_root(alloc: Global, entry: &Record, page: u64, node: &Node) -> Result<Node, AllocError>
    ensures { IfOk result (λ v. node_of v ≡ records.applied_as records.Kind.Drop (record_of entry.now) page (node_of node.now)) }
{
    if page == 0 {
        let pairs = Vec::from_slice(alloc, &entry.pairs)?;
        return Ok(Node {
            live: node.live,
            level: u64::from(entry.level),
            low: node.low,
            high: node.high,
            pairs,
        });
    }
    if page != entry.right.page {
        return copy_of(alloc, node);
    }
    Ok(free(alloc))
}

fn purge(alloc: Global, entry: &Record, page: u64, node: &Node) -> Result<Node, AllocError>
    ensures { IfOk result (λ v. node_of v ≡ records.applied_as records.Kind.Purge (record_of entry.now) page (node_of node.now)) }
{
    if page == entry.left.page {
        let pairs = others(alloc, &node.pairs, &entry.keys)?;
        return Ok(with_pairs(node, pairs));
    }
    copy_of(alloc, node)
}

pub(crate) fn with_pairs(node: &Node, pairs: Vec<Pair>) -> Node
    ensures { node_of result ≡ node_of (record node.now { pairs = pairs }) }
{
    Node {
        live: node.live,
        level: node.level,
        low: node.low,
        high: node.high,
        pairs,
    }
}

pub(crate) fn free(alloc: Global) -> Node
    ensures { node_of result ≡ nodes.free }
{
    Node {
        live: false,
        level: 0,
        low: 0,
        high: 0,
        pairs: Vec::new(alloc),
    }
}

pub(crate) fn copy_of(alloc: Global, node: &Node) -> Result<Node, AllocError>
    ensures { IfOk result (λ v. node_of v ≡ node_of node.now) }
{
    let pairs = Vec::from_slice(alloc, &node.pairs)?;
    Ok(with_pairs(node, pairs))
}
