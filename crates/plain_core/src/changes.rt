// What a record makes of one of its pages.
ghost use Rattle.std.specs.Prelude.{◌≡◌, ◌∷◌, [], IfOk};
ghost use Rattle.page_model.specs.Nodes as nodes;
ghost use Rattle.page_model.specs.Records as records;
ghost use Rattle.core_state.specs.image_model.Entries as logged;
ghost use Rattle.plain_core.specs.Records.{node_of, page_of, record_of, kind_of, entry_of};

use crate::effects::next;
use crate::records::{Entry, Kind, Node, Page, PageRecord};
use crate::refusal::Refusal;
use plain_images::Pair;
use plain_images::pairs::{below, joined, others, put, without};
use std::alloc::{AllocError, Global};

impl Page {
    // The page, as the entry leaves it.
    pub(crate) fn changed_by(
        &self,
        alloc: Global,
        entry: &Entry,
        page: u64,
    ) -> Result<Page, Refusal>
        ensures { IfOk result (λ v. page_of v ≡ logged.written (entry_of entry.now) page (page_of self.now)) }
    {
        let node = self
            .node
            .changed_by(alloc, entry.kind, &entry.page_record, page)?;
        Ok(Page {
            number: entry.number,
            log: entry.log,
            node,
        })
    }
}

impl Node {
    // What the record makes of its page, a node or a free one. A page that it does not change stays as it is.
    fn changed_by(
        &self,
        alloc: Global,
        kind: Kind,
        change: &PageRecord,
        page: u64,
    ) -> Result<Node, Refusal>
        ensures { IfOk result (λ v. node_of v ≡ records.applied_as (logged.page_kind (kind_of kind)) (record_of change.now) page (node_of self.now)) }
    {
        match kind {
            Kind::Change | Kind::PutBack => Ok(self.after_write(alloc, change, page)?),
            Kind::Split => Ok(self.after_split(alloc, change, page)?),
            Kind::Lift => self.after_lift(alloc, change, page),
            Kind::Join => Ok(self.after_join(alloc, change, page)?),
            Kind::Drop => Ok(self.after_drop(alloc, change, page)?),
            // a read and an end have no page and no keys
            Kind::Purge | Kind::Read | Kind::Commit | Kind::Abort => {
                Ok(self.after_purge(alloc, change, page)?)
            }
        }
    }

    fn after_write(&self, alloc: Global, change: &PageRecord, page: u64) -> Result<Node, AllocError>
        ensures { IfOk result (λ v. node_of v ≡ records.applied_as records.Kind.Change (record_of change.now) page (node_of self.now)) }
    {
        if page == change.left.page {
            let pairs = put(alloc, &self.pairs, change.key, change.after)?;
            return Ok(self.with_pairs(pairs));
        }
        self.copy(alloc)
    }

    fn after_split(&self, alloc: Global, change: &PageRecord, page: u64) -> Result<Node, AllocError>
        ensures { IfOk result (λ v. node_of v ≡ records.applied_as records.Kind.Split (record_of change.now) page (node_of self.now)) }
    {
        if page == change.left.page {
            let pairs = below(alloc, &self.pairs, change.separator)?;
            return Ok(Node {
                live: self.live,
                level: self.level,
                low: self.low,
                high: change.separator,
                pairs,
            });
        }
        if page == change.right.page {
            let pairs = Vec::from_slice(alloc, &change.pairs)?;
            return Ok(Node {
                live: true,
                level: change.level,
                low: change.separator,
                high: change.high,
                pairs,
            });
        }
        if page == change.parent.page {
            let pairs = put(alloc, &self.pairs, change.separator, change.right.page)?;
            return Ok(self.with_pairs(pairs));
        }
        self.copy(alloc)
    }

    fn after_join(&self, alloc: Global, change: &PageRecord, page: u64) -> Result<Node, AllocError>
        ensures { IfOk result (λ v. node_of v ≡ records.applied_as records.Kind.Join (record_of change.now) page (node_of self.now)) }
    {
        if page == change.left.page {
            let pairs = joined(alloc, &self.pairs, &change.pairs)?;
            return Ok(Node {
                live: self.live,
                level: self.level,
                low: self.low,
                high: change.high,
                pairs,
            });
        }
        if page == change.right.page {
            return Ok(Node::free(alloc));
        }
        if page == change.parent.page {
            let pairs = without(alloc, &self.pairs, change.separator)?;
            return Ok(self.with_pairs(pairs));
        }
        self.copy(alloc)
    }

    fn after_lift(&self, alloc: Global, change: &PageRecord, page: u64) -> Result<Node, Refusal>
        ensures { IfOk result (λ v. node_of v ≡ records.applied_as records.Kind.Lift (record_of change.now) page (node_of self.now)) }
    {
        if page == 0 {
            let level = next(change.level)?;
            return Ok(self.over_child(alloc, level, change.right.page)?);
        }
        if page == change.right.page {
            let pairs = Vec::from_slice(alloc, &change.pairs)?;
            return Ok(Node {
                live: true,
                level: change.level,
                low: 0,
                high: change.high,
                pairs,
            });
        }
        Ok(self.copy(alloc)?)
    }

    // The node at a level, with one child from key 0 on.
    fn over_child(&self, alloc: Global, level: u64, child: u64) -> Result<Node, AllocError>
        ensures { IfOk result (λ v. node_of v ≡ record (node_of self.now) { level = level; pairs = record { key = 0; word = child } ∷ [] }) }
    {
        let pairs = Vec::from_slice(
            alloc,
            &[Pair {
                key: 0,
                word: child,
            }],
        )?;
        Ok(Node {
            live: self.live,
            level,
            low: self.low,
            high: self.high,
            pairs,
        })
    }

    fn after_drop(&self, alloc: Global, change: &PageRecord, page: u64) -> Result<Node, AllocError>
        ensures { IfOk result (λ v. node_of v ≡ records.applied_as records.Kind.Drop (record_of change.now) page (node_of self.now)) }
    {
        if page == 0 {
            let pairs = Vec::from_slice(alloc, &change.pairs)?;
            return Ok(Node {
                live: self.live,
                level: change.level,
                low: self.low,
                high: self.high,
                pairs,
            });
        }
        if page == change.right.page {
            return Ok(Node::free(alloc));
        }
        self.copy(alloc)
    }

    fn after_purge(&self, alloc: Global, change: &PageRecord, page: u64) -> Result<Node, AllocError>
        ensures { IfOk result (λ v. node_of v ≡ records.applied_as records.Kind.Purge (record_of change.now) page (node_of self.now)) }
    {
        if page == change.left.page {
            let pairs = others(alloc, &self.pairs, &change.keys)?;
            return Ok(self.with_pairs(pairs));
        }
        self.copy(alloc)
    }

    pub(crate) fn with_pairs(&self, pairs: Vec<Pair>) -> Node
        ensures { node_of result ≡ node_of (record self.now { pairs = pairs }) }
    {
        Node {
            live: self.live,
            level: self.level,
            low: self.low,
            high: self.high,
            pairs,
        }
    }

    // A free page.
    fn free(alloc: Global) -> Node
        ensures { node_of result ≡ nodes.free }
    {
        Node {
            live: false,
            level: 0,
            low: 0,
            high: 0,
            pairs: Vec::new(alloc),
        }
    }
}
