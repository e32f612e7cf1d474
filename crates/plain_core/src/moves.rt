// What changes of the tree make of the state.
ghost use Rattle.std.specs.Prelude.{◌≡◌, ◌∷◌, [], ◌++◌, map, IfOk, if◌then◌else◌};
ghost use Rattle.map_model.specs.Lists.{upd};
ghost use Rattle.page_model.specs.Needs as page_needs;
ghost use Rattle.core_state.specs.image_model.Entries as logged;
ghost use Rattle.core_state.specs.States as states;
ghost use Rattle.core_state.specs.Steps as steps;
ghost use Rattle.plain_core.specs.Structure.{placed_by, placing_of, at_number};
ghost use Rattle.plain_core.specs.Records.{page_of, kind_of, record_of, entry_of};
ghost use Rattle.plain_core.specs.States.{Becomes, worker_of, state_of};

use crate::page_records::page_entry;
use crate::records::{Entry, Kind, Page, PageRecord};
use crate::refusal::Refusal;
use crate::state::{Core, Worker};
use crate::table::Placed;
use std::alloc::{AllocError, Global};

impl Worker {
    // The worker, with its clock at the number.
    fn at_number(self, number: u64) -> Worker
        ensures { worker_of result ≡ at_number number (worker_of self) }
    {
        Worker {
            clock: number,
            floor: self.floor,
            debt: self.debt,
            txn: self.txn,
            end: self.end,
            is_open: self.is_open,
            changes: self.changes,
        }
    }
}

// A page that is to be set stands behind the others.
fn add(placed: &mut Vec<Placed<Page>>, place: u64, value: Page) -> Result<(), AllocError>
    ensures { IfOk result (λ _. placed.new.items ≡ placed.old.items ++ record { place = place; value = value } ∷ []) }
{
    placed.push(Placed { place, value })?;
    Ok(())
}

impl Core {
    // The worker, after it touched the pages, the last of the list first.
    pub(crate) fn at_pages(
        &self,
        alloc: Global,
        own: u64,
        pages: &[u64],
    ) -> Result<Worker, AllocError>
        ensures { IfOk result (λ a. let s = state_of self.now in worker_of a ≡ steps.at_pages s own (s.worker own) pages.now) }
    {
        let mut worker = self.workers.get(own).copy(alloc)?;
        let mut left = pages.len();
        while left > 0 {
            left -= 1;
            let page = self.pages.get(pages[left]);
            worker.touch(own, page.number, page.log);
        }
        Ok(worker)
    }

    // The pages of the entry, as it leaves them.
    fn placed_by(&self, alloc: Global, entry: &Entry) -> Result<Vec<Placed<Page>>, Refusal>
        ensures { IfOk result (λ v. let r = entry_of entry.now in map placing_of v.items ≡ placed_by (state_of self.now).page r r.refs) }
    {
        let mut placed = Vec::new(alloc);
        for one in &entry.refs {
            let value = self.pages.get(one.page).changed_by(alloc, entry, one.page)?;
            add(&mut placed, one.page, value)?;
        }
        Ok(placed)
    }

    // The pages of the entry become what it leaves of them.
    fn change_pages(&mut self, alloc: Global, entry: &Entry) -> Result<(), Refusal>
        ensures { IfOk result (λ _. Becomes self.old self.new (let s = state_of self.old in let r = entry_of entry.now in record s { page = λ p. if logged.touches p r then logged.written r p (s.page p) else s.page p })) }
    {
        let placed = self.placed_by(alloc, entry)?;
        self.pages.set_all(placed)?;
        Ok(())
    }

    // The record is entered, its pages are changed, and its worker is this from then on.
    fn record_in(
        &mut self,
        alloc: Global,
        entry: Entry,
        own: u64,
        worker: Worker,
    ) -> Result<(), Refusal>
        ensures { IfOk result (λ _. Becomes self.old self.new (let s = state_of self.old in let r = entry_of entry in record s { entries = r ∷ s.entries; page = λ p. if logged.touches p r then logged.written r p (s.page p) else s.page p; worker = upd s.worker own (worker_of worker) })) }
    {
        self.change_pages(alloc, &entry)?;
        self.enter(entry)?;
        self.set_worker(own, worker)?;
        Ok(())
    }

    // The pages change as the record says, which changes no value.
    fn move_pages(
        &mut self,
        alloc: Global,
        kind: Kind,
        own: u64,
        pages: &[u64],
        page_record: PageRecord,
    ) -> Result<(), Refusal>
        ensures { IfOk result (λ _. Becomes self.old self.new (steps.moves (state_of self.old) (kind_of kind) own pages.now (record_of page_record))) }
    {
        let met = self.at_pages(alloc, own, pages)?;
        let refs = self.refs_of(alloc, pages)?;
        let entry = page_entry(kind, own, &met, refs, page_record)?;
        let mover = met.at_number(entry.number);
        self.record_in(alloc, entry, own, mover)?;
        Ok(())
    }

    pub(crate) fn split(
        &mut self,
        alloc: Global,
        worker: u64,
        left: u64,
        right: u64,
        parent: u64,
        place: u64,
    ) -> Result<(), Refusal>
        ensures { IfOk result (λ _. Becomes self.old self.new (let s = state_of self.old in steps.moves s logged.Kind.Split worker (left ∷ right ∷ parent ∷ []) (page_needs.split_record (states.nodes_of s) (states.gsns_of s) left right parent place))) }
    {
        let change = self.split_record(alloc, left, right, parent, place)?;
        self.move_pages(alloc, Kind::Split, worker, &[left, right, parent], change)?;
        Ok(())
    }

    pub(crate) fn lift(&mut self, alloc: Global, worker: u64, child: u64) -> Result<(), Refusal>
        ensures { IfOk result (λ _. Becomes self.old self.new (let s = state_of self.old in steps.moves s logged.Kind.Lift worker (0 ∷ child ∷ []) (page_needs.lift_record (states.nodes_of s) (states.gsns_of s) child))) }
    {
        let change = self.lift_record(alloc, child)?;
        self.move_pages(alloc, Kind::Lift, worker, &[0, child], change)?;
        Ok(())
    }

    pub(crate) fn join(
        &mut self,
        alloc: Global,
        worker: u64,
        left: u64,
        right: u64,
        parent: u64,
    ) -> Result<(), Refusal>
        ensures { IfOk result (λ _. Becomes self.old self.new (let s = state_of self.old in steps.moves s logged.Kind.Join worker (left ∷ right ∷ parent ∷ []) (page_needs.join_record (states.nodes_of s) (states.gsns_of s) left right parent))) }
    {
        let change = self.join_record(alloc, left, right, parent)?;
        self.move_pages(alloc, Kind::Join, worker, &[left, right, parent], change)?;
        Ok(())
    }

    // The root's one child becomes the root.
    pub(crate) fn drop_root(
        &mut self,
        alloc: Global,
        worker: u64,
        child: u64,
    ) -> Result<(), Refusal>
        ensures { IfOk result (λ _. Becomes self.old self.new (let s = state_of self.old in steps.moves s logged.Kind.Drop worker (0 ∷ child ∷ []) (page_needs.drop_record (states.nodes_of s) (states.gsns_of s) child))) }
    {
        let change = self.drop_record(alloc, child)?;
        self.move_pages(alloc, Kind::Drop, worker, &[0, child], change)?;
        Ok(())
    }

    pub(crate) fn purge(
        &mut self,
        alloc: Global,
        worker: u64,
        page: u64,
        keys: &[u64],
    ) -> Result<(), Refusal>
        ensures { IfOk result (λ _. Becomes self.old self.new (let s = state_of self.old in steps.moves s logged.Kind.Purge worker (page ∷ []) (page_needs.purge_record (states.gsns_of s) page keys.now))) }
    {
        let change = self.purge_record(alloc, page, keys)?;
        self.move_pages(alloc, Kind::Purge, worker, &[page], change)?;
        Ok(())
    }
}
