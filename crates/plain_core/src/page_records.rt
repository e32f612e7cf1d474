// The records of what changes the tree.
ghost use Rattle.std.specs.Prelude.{◌≡◌, map, IfOk};
ghost use Rattle.page_model.specs.Needs as page_needs;
ghost use Rattle.page_model.specs.Records as model_records;
ghost use Rattle.core_state.specs.States as states;
ghost use Rattle.core_state.specs.Steps as steps;
ghost use Rattle.plain_core.specs.Structure.{split_record_in, lift_record_in, join_record_in, drop_record_in, purge_record_in, page_entry_in};
ghost use Rattle.plain_core.specs.Records.{node_of, ref_of, record_of, kind_of, entry_of};
ghost use Rattle.plain_core.specs.States.{worker_of, state_of};

use crate::effects::next;
use crate::pairs::{key_at, onward};
use crate::records::{Entry, Kind, Node, PageKind, PageRecord, Ref};
use crate::refusal::Refusal;
use crate::state::{Core, Worker};
use std::alloc::{AllocError, Global};

impl Ref {
    // No page.
    fn nowhere() -> Ref
        ensures { ref_of result ≡ model_records.nowhere }
    {
        Ref {
            page: 0,
            previous: 0,
        }
    }
}

impl Node {
    // The node is split at the pair at a place.
    fn split_record(
        &self,
        alloc: Global,
        left: Ref,
        right: Ref,
        parent: Ref,
        place: u64,
    ) -> Result<PageRecord, AllocError>
        ensures { IfOk result (λ r. record_of r ≡ split_record_in (ref_of left) (ref_of right) (ref_of parent) (node_of self.now) place) }
    {
        let separator = key_at(place, &self.pairs);
        let pairs = onward(alloc, &self.pairs, separator)?;
        Ok(PageRecord {
            kind: PageKind::Split,
            left,
            right,
            parent,
            key: 0,
            before: 0,
            after: 0,
            separator,
            high: self.high,
            level: self.level,
            pairs,
            keys: Vec::new(alloc),
        })
    }

    // The root becomes its own child.
    fn lift_record(&self, alloc: Global, root: Ref, child: Ref) -> Result<PageRecord, AllocError>
        ensures { IfOk result (λ r. record_of r ≡ lift_record_in (ref_of root) (ref_of child) (node_of self.now)) }
    {
        let pairs = Vec::from_slice(alloc, &self.pairs)?;
        Ok(PageRecord {
            kind: PageKind::Lift,
            left: root,
            right: child,
            parent: Ref::nowhere(),
            key: 0,
            before: 0,
            after: 0,
            separator: 0,
            high: self.high,
            level: self.level,
            pairs,
            keys: Vec::new(alloc),
        })
    }

    // The node joins the one on its left.
    fn join_record(
        &self,
        alloc: Global,
        left: Ref,
        right: Ref,
        parent: Ref,
    ) -> Result<PageRecord, AllocError>
        ensures { IfOk result (λ r. record_of r ≡ join_record_in (ref_of left) (ref_of right) (ref_of parent) (node_of self.now)) }
    {
        let pairs = Vec::from_slice(alloc, &self.pairs)?;
        Ok(PageRecord {
            kind: PageKind::Join,
            left,
            right,
            parent,
            key: 0,
            before: 0,
            after: 0,
            separator: self.low,
            high: self.high,
            level: 0,
            pairs,
            keys: Vec::new(alloc),
        })
    }

    // The node becomes the root.
    fn drop_record(&self, alloc: Global, root: Ref, child: Ref) -> Result<PageRecord, AllocError>
        ensures { IfOk result (λ r. record_of r ≡ drop_record_in (ref_of root) (ref_of child) (node_of self.now)) }
    {
        let pairs = Vec::from_slice(alloc, &self.pairs)?;
        Ok(PageRecord {
            kind: PageKind::Drop,
            left: root,
            right: child,
            parent: Ref::nowhere(),
            key: 0,
            before: 0,
            after: 0,
            separator: 0,
            high: 0,
            level: self.level,
            pairs,
            keys: Vec::new(alloc),
        })
    }
}

impl PageRecord {
    // The keys leave their leaf.
    fn of_purge(alloc: Global, leaf: Ref, keys: &[u64]) -> Result<PageRecord, AllocError>
        ensures { IfOk result (λ r. record_of r ≡ purge_record_in (ref_of leaf) keys.now) }
    {
        let keys = Vec::from_slice(alloc, keys)?;
        Ok(PageRecord {
            kind: PageKind::Purge,
            left: leaf,
            right: Ref::nowhere(),
            parent: Ref::nowhere(),
            key: 0,
            before: 0,
            after: 0,
            separator: 0,
            high: 0,
            level: 0,
            pairs: Vec::new(alloc),
            keys,
        })
    }
}

impl Core {
    // A page with its number.
    fn ref_to(&self, page: u64) -> Ref
        ensures { ref_of result ≡ model_records.ref (states.gsns_of (state_of self.now)) page }
    {
        Ref {
            page,
            previous: self.pages.get(page).number,
        }
    }

    // The pages with their numbers.
    pub(crate) fn refs_of(&self, alloc: Global, pages: &[u64]) -> Result<Vec<Ref>, AllocError>
        ensures { IfOk result (λ v. map ref_of v.items ≡ steps.refs_of (state_of self.now) pages.now) }
    {
        let mut refs = Vec::new(alloc);
        for page in pages {
            refs.push(self.ref_to(*page))?;
        }
        Ok(refs)
    }

    pub(crate) fn split_record(
        &self,
        alloc: Global,
        left: u64,
        right: u64,
        parent: u64,
        place: u64,
    ) -> Result<PageRecord, AllocError>
        ensures { IfOk result (λ r. let s = state_of self.now in record_of r ≡ page_needs.split_record (states.nodes_of s) (states.gsns_of s) left right parent place) }
    {
        let left_ref = self.ref_to(left);
        let right_ref = self.ref_to(right);
        let parent_ref = self.ref_to(parent);
        let split = &self.pages.get(left).node;
        split.split_record(alloc, left_ref, right_ref, parent_ref, place)
    }

    pub(crate) fn lift_record(&self, alloc: Global, child: u64) -> Result<PageRecord, AllocError>
        ensures { IfOk result (λ r. let s = state_of self.now in record_of r ≡ page_needs.lift_record (states.nodes_of s) (states.gsns_of s) child) }
    {
        let root_ref = self.ref_to(0);
        let child_ref = self.ref_to(child);
        let root = &self.pages.get(0).node;
        root.lift_record(alloc, root_ref, child_ref)
    }

    pub(crate) fn join_record(
        &self,
        alloc: Global,
        left: u64,
        right: u64,
        parent: u64,
    ) -> Result<PageRecord, AllocError>
        ensures { IfOk result (λ r. let s = state_of self.now in record_of r ≡ page_needs.join_record (states.nodes_of s) (states.gsns_of s) left right parent) }
    {
        let left_ref = self.ref_to(left);
        let right_ref = self.ref_to(right);
        let parent_ref = self.ref_to(parent);
        let joined = &self.pages.get(right).node;
        joined.join_record(alloc, left_ref, right_ref, parent_ref)
    }

    pub(crate) fn drop_record(&self, alloc: Global, child: u64) -> Result<PageRecord, AllocError>
        ensures { IfOk result (λ r. let s = state_of self.now in record_of r ≡ page_needs.drop_record (states.nodes_of s) (states.gsns_of s) child) }
    {
        let root_ref = self.ref_to(0);
        let child_ref = self.ref_to(child);
        let dropped = &self.pages.get(child).node;
        dropped.drop_record(alloc, root_ref, child_ref)
    }

    pub(crate) fn purge_record(
        &self,
        alloc: Global,
        page: u64,
        keys: &[u64],
    ) -> Result<PageRecord, AllocError>
        ensures { IfOk result (λ r. record_of r ≡ page_needs.purge_record (states.gsns_of (state_of self.now)) page keys.now) }
    {
        let leaf = self.ref_to(page);
        PageRecord::of_purge(alloc, leaf, keys)
    }
}

// A record of these pages that changes no value takes the next number.
pub(crate) fn page_entry(
    kind: Kind,
    own: u64,
    worker: &Worker,
    refs: Vec<Ref>,
    page_record: PageRecord,
) -> Result<Entry, Refusal>
    ensures { IfOk result (λ r. entry_of r ≡ page_entry_in (kind_of kind) own (worker_of worker.now) (map ref_of refs.items) (record_of page_record)) }
{
    let number = next(worker.clock)?;
    Ok(Entry {
        kind,
        log: own,
        txn: worker.txn,
        number,
        key: 0,
        before: 0,
        after: 0,
        need: 0,
        refs,
        page_record,
    })
}
