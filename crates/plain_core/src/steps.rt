// An event, and a list of them: each happens if its need is met.
ghost use Rattle.std.specs.Prelude.{◌≡◌, ◌==◌, ◌^◌, suc, IfOk, IfErr};
ghost use Rattle.core_state.specs.Steps as steps;
ghost use Rattle.plain_core.specs.Spent.{raised_by, IsSpent, IsSpentIn, IfNumber};
ghost use Rattle.plain_core.specs.States.{Rest, Becomes, IsStep, opening, state_of};
ghost use Rattle.plain_core.specs.Events.{event_of, events_of};

use crate::event::Event;
use crate::refusal::Refusal;
use crate::state::Core;
use std::alloc::{AllocError, Global};

impl Core {
    /// What an event makes of the state.
    fn happen(&mut self, alloc: Global, event: &Event) -> Result<(), Refusal>
        ensures { IfOk result (λ _. (x : Rest self.old.settings) → Becomes self.old self.new (steps.happens (opening self.old.settings x) (state_of self.old) (event_of event.now))) }
    {
        match *event {
            Event::Enter { worker, epoch } => self.come_in(worker, epoch),
            Event::Begin { worker, flushed } => self.begin(alloc, worker, flushed),
            Event::Lock { worker, row, mode } => self.lock(alloc, worker, row, mode),
            Event::Read {
                worker,
                page,
                key,
                ..
            } => self.read(alloc, worker, page, key),
            Event::Next {
                worker,
                page,
                answer,
                ..
            } => self.follow(alloc, worker, page, answer),
            Event::Change {
                worker,
                page,
                key,
                word,
            } => self.change(alloc, worker, page, key, word),
            Event::PutBack { worker, page } => self.put_back(alloc, worker, page),
            Event::Split {
                worker,
                left,
                right,
                parent,
                place,
            } => self.split(alloc, worker, left, right, parent, place),
            Event::Lift { worker, child } => self.lift(alloc, worker, child),
            Event::Join {
                worker,
                left,
                right,
                parent,
            } => self.join(alloc, worker, left, right, parent),
            Event::Drop { worker, child } => self.drop_root(alloc, worker, child),
            Event::Purge {
                worker,
                page,
                ref keys,
            } => self.purge(alloc, worker, page, keys),
            Event::End {
                worker,
                commit,
                flushed,
            } => self.end(alloc, worker, commit, flushed),
            Event::Unlock { worker, row } => self.unlock(alloc, worker, row),
            Event::Flush { worker, number } => self.flush(worker, number),
            Event::Sync { number } => self.sync(alloc, number),
            Event::Post { number, .. } => {
                self.post(number);
                Ok(())
            }
            Event::Fetch { page, ref pairs } => self.fetch(alloc, page, pairs),
            Event::Load { page, frame } => self.load(alloc, page, frame),
            Event::Cool { page } => self.cool(alloc, page),
            Event::Rescue { page } => self.rescue(alloc, page),
            Event::Save { page } => self.save(alloc, page),
            Event::Evict { page } => self.evict(alloc, page),
            Event::Leave { worker } => self.leave(alloc, worker),
            Event::Tick => self.tick(),
            Event::Cut { number, ref heads } => self.cut_off(alloc, number, heads),
            Event::Peek { .. } | Event::Ask { .. } | Event::Refused { .. } | Event::Miss { .. } => {
                Ok(())
            }
        }
    }

    // The clock of the worker after it touched the pages.
    fn clock_at(&self, alloc: Global, worker: u64, pages: &[u64]) -> Result<u64, AllocError>
        ensures { IfOk result (λ n. let s = state_of self.now in n ≡ (steps.at_pages s worker (s.worker worker) pages.now).clock) }
    {
        let met = self.at_pages(alloc, worker, pages)?;
        Ok(met.clock)
    }

    // The number that the event raises by one, or 0.
    fn raised_by(&self, alloc: Global, event: &Event) -> Result<u64, AllocError>
        ensures { IfOk result (λ n. n ≡ raised_by (state_of self.now) (event_of event.now)) }
    {
        match *event {
            Event::Begin { worker, .. } => Ok(self.workers.get(worker).txn),
            Event::Change { worker, page, .. } => self.clock_at(alloc, worker, &[page]),
            Event::PutBack { worker, page } => self.clock_at(alloc, worker, &[page]),
            Event::Split {
                worker,
                left,
                right,
                parent,
                ..
            } => self.clock_at(alloc, worker, &[left, right, parent]),
            Event::Lift { worker, child } => self.clock_at(alloc, worker, &[0, child]),
            Event::Join {
                worker,
                left,
                right,
                parent,
            } => self.clock_at(alloc, worker, &[left, right, parent]),
            Event::Drop { worker, child } => self.clock_at(alloc, worker, &[0, child]),
            Event::Purge { worker, page, .. } => self.clock_at(alloc, worker, &[page]),
            Event::End { worker, .. } => Ok(self.workers.get(worker).clock),
            Event::Tick => Ok(self.epoch),
            Event::Enter { .. }
            | Event::Leave { .. }
            | Event::Lock { .. }
            | Event::Read { .. }
            | Event::Next { .. }
            | Event::Peek { .. }
            | Event::Unlock { .. }
            | Event::Flush { .. }
            | Event::Sync { .. }
            | Event::Post { .. }
            | Event::Fetch { .. }
            | Event::Load { .. }
            | Event::Cool { .. }
            | Event::Rescue { .. }
            | Event::Save { .. }
            | Event::Evict { .. }
            | Event::Cut { .. }
            | Event::Ask { .. }
            | Event::Refused { .. }
            | Event::Miss { .. } => Ok(0),
        }
    }

    // The number that the event takes does not fit 64 bits.
    fn is_spent(&self, alloc: Global, event: &Event) -> Result<bool, AllocError>
        ensures { IfOk result (λ spent. spent ≡ (suc (raised_by (state_of self.now) (event_of event.now)) == 2 ^ 64)) }
    {
        let raised = self.raised_by(alloc, event)?;
        Ok(raised == u64::MAX)
    }

    /// The event happens, if its need is met. Answers whether it is; if not, nothing changes. After a refusal nothing is
    /// said of the state.
    pub fn step(&mut self, alloc: Global, event: &Event) -> Result<bool, Refusal>
        ensures answer { IfOk result (λ is_met. (x : Rest self.old.settings) → IsStep (opening self.old.settings x) self.old self.new (event_of event.now) is_met) }

        ensures cause { IfErr result (λ refusal. IfNumber refusal ((x : Rest self.old.settings) → IsSpent (opening self.old.settings x) (state_of self.old) (event_of event.now))) }
    {
        if !self.may(event) {
            return Ok(false);
        }
        if self.is_spent(alloc, event)? {
            return Err(Refusal::Number);
        }
        match self.happen(alloc, event) {
            Ok(()) => Ok(true),
            // its number is there, so memory was wanting
            Err(_) => Err(Refusal::Memory),
        }
    }

    /// The events, the first first.
    pub fn run(&mut self, alloc: Global, events: &[Event]) -> Result<(), Refusal>
        ensures after { IfOk result (λ _. (x : Rest self.old.settings) → Becomes self.old self.new (steps.run (opening self.old.settings x) (state_of self.old) (events_of events.now))) }

        ensures cause { IfErr result (λ refusal. IfNumber refusal ((x : Rest self.old.settings) → IsSpentIn (opening self.old.settings x) (state_of self.old) (events_of events.now))) }
    {
        for event in events {
            match self.step(alloc, event) {
                Ok(_) => {}
                Err(refusal) => return Err(refusal),
            }
        }
        Ok(())
    }
}
