// Frames: what it needs to read and to load a page, to cool it, to rescue and to evict it, and what that makes of the state.
ghost use Rattle.std.specs.Prelude.{◌≡◌, ◌||◌, ◌&&◌, not, ℕ, map, IfOk};
ghost use Rattle.map_model.specs.Lists.{upd};
ghost use Rattle.page_model.specs.Check as check;
ghost use Rattle.core_state.specs.Lists as lists;
ghost use Rattle.core_state.specs.States as states;
ghost use Rattle.core_state.specs.Needs as needs;
ghost use Rattle.core_state.specs.Steps as steps;
ghost use Rattle.core_state.specs.Events as events;
ghost use Rattle.plain_images.specs.Pages.{pair_of};
ghost use Rattle.plain_core.specs.Inside.{may_have_in, has_hot_parent_in, has_hot_child_in, is_empty_in, is_ripe_page};
ghost use Rattle.plain_core.specs.Tables.{at};
ghost use Rattle.plain_core.specs.Records.{node_of};
ghost use Rattle.plain_core.specs.States.{Rest, Becomes, opening, place_of, state_of};

use crate::pairs::{are_same, are_words, is_rising};
use crate::records::Node;
use crate::refusal::Refusal;
use crate::state::{Core, Place, Settings};
use crate::table::{Placed, Table};
use plain_images::Pair;
use std::alloc::{AllocError, Global};

impl Node {
    // A leaf for which these pairs are well formed, and its own where the opening is faithful.
    fn may_have(&self, settings: Settings, pairs: &[Pair]) -> bool
        ensures { result ≡ may_have_in settings (node_of self.now) (map pair_of pairs.now) }
    {
        (self.live && self.level == 0)
            && (pairs.len() as u64 <= settings.room
                && (is_rising(self.low, pairs, self.high)
                    && (are_words(settings.dead, pairs)
                        && (!settings.faithful || are_same(pairs, &self.pairs)))))
    }
}

impl Place {
    fn is_cooling(&self) -> bool
        ensures { result ≡ states.is_cooling (place_of self.now) }
    {
        match self {
            Place::Cooling { .. } => true,
            _ => false,
        }
    }

    fn is_in(&self, place: u64) -> bool
        ensures { result ≡ states.in_frame (place_of self.now) place }
    {
        match self {
            Place::Hot { frame } => *frame == place,
            Place::Cooling { frame, .. } => *frame == place,
            Place::Cold => false,
        }
    }

    // The frame, or 0 where it is in none.
    fn frame(&self) -> u64
        ensures { result ≡ states.frame_of (place_of self.now) }
    {
        match self {
            Place::Hot { frame } => *frame,
            Place::Cooling { frame, .. } => *frame,
            Place::Cold => 0,
        }
    }

    fn waits_for(&self, worker: u64) -> bool
        ensures { result ≡ states.waits_for (place_of self.now) worker }
    {
        match self {
            Place::Cooling { waited, .. } => *waited.get(worker),
            _ => false,
        }
    }

    // It waits for no number below this one.
    fn waits_for_none(&self, workers: u64) -> bool
        ensures { result ≡ lists.all_below workers (λ w. not (states.waits_for (place_of self.now) w)) }
    {
        let mut none = true;
        for worker in 0..workers {
            let waits = self.waits_for(worker);
            none = !waits && none;
        }
        none
    }
}

impl Table<Option<u64>> {
    // Who is inside.
    fn insiders(&self, alloc: Global) -> Result<Table<bool>, AllocError>
        ensures { IfOk result (λ t. (i : ℕ) → at t i ≡ needs.is_inside (at self.now i)) }
    {
        let mut changes = Vec::new(alloc);
        for change in &self.changes {
            changes.push(Placed {
                place: change.place,
                value: is_inside(change.value),
            })?;
        }
        Ok(Table {
            default: is_inside(self.default),
            changes,
        })
    }
}

fn is_inside(epoch: Option<u64>) -> bool
    ensures { result ≡ needs.is_inside epoch }
{
    match epoch {
        Some(_) => true,
        None => false,
    }
}

// The queue but for the page.
fn without(alloc: Global, queue: &[u64], page: u64) -> Result<Vec<u64>, AllocError>
    ensures { IfOk result (λ v. v.items ≡ lists.without page queue.now) }
{
    let mut others = Vec::new(alloc);
    for waiting in queue {
        if *waiting != page {
            others.push(*waiting)?;
        }
    }
    Ok(others)
}

impl Core {
    // If the one names the other, it is hot.
    fn is_hot_if_parent(&self, parent: u64, page: u64) -> bool
        ensures { result ≡ (not (check.names_page ((state_of self.now).page parent).node page) || states.is_hot ((state_of self.now).place parent)) }
    {
        !self.pages.get(parent).node.names_page(page) || self.is_hot(parent)
    }

    // Each page that names the page is hot.
    fn has_hot_parent(&self, page: u64) -> bool
        ensures { result ≡ has_hot_parent_in self.now.settings (state_of self.now) page }
    {
        let mut hot = true;
        for parent in 0..self.settings.pages {
            let fits = self.is_hot_if_parent(parent, page);
            hot = fits && hot;
        }
        hot
    }

    fn is_hot_child(&self, page: u64, child: u64) -> bool
        ensures { result ≡ (check.names_page ((state_of self.now).page page).node child && states.is_hot ((state_of self.now).place child)) }
    {
        self.pages.get(page).node.names_page(child) && self.is_hot(child)
    }

    // Some page that the page names is hot.
    fn has_hot_child(&self, page: u64) -> bool
        ensures { result ≡ has_hot_child_in self.now.settings (state_of self.now) page }
    {
        let mut none = true;
        for child in 0..self.settings.pages {
            let hot = self.is_hot_child(page, child);
            none = !hot && none;
        }
        !none
    }

    // No page stands in the frame.
    fn is_empty_frame(&self, frame: u64) -> bool
        ensures { result ≡ is_empty_in self.now.settings (state_of self.now) frame }
    {
        let mut none = true;
        for page in 0..self.settings.pages {
            let stands = self.places.get(page).is_in(frame);
            none = !stands && none;
        }
        none
    }

    // Its contents are not the saved ones.
    fn is_dirty(&self, page: u64) -> bool
        ensures { result ≡ needs.is_dirty (state_of self.now) page }
    {
        self.saved.get(page).number < self.pages.get(page).number
    }

    // It waits for no worker.
    fn is_ripe(&self, page: u64) -> bool
        ensures { result ≡ is_ripe_page self.now.settings (state_of self.now) page }
    {
        let place = self.places.get(page);
        !place.waits_for(self.settings.workers) && place.waits_for_none(self.settings.workers)
    }

    pub(crate) fn may_fetch(&self, page: u64, pairs: &[Pair]) -> bool
        ensures { (x : Rest self.now.settings) → result ≡ needs.may (opening self.now.settings x) (state_of self.now) (events.Event.Fetch page (map pair_of pairs.now)) }
    {
        page < self.settings.pages
            && (self.places.get(page).is_cold()
                && self.saved.get(page).node.may_have(self.settings, pairs))
    }

    pub(crate) fn may_load(&self, page: u64, frame: u64) -> bool
        ensures { (x : Rest self.now.settings) → result ≡ needs.may (opening self.now.settings x) (state_of self.now) (events.Event.Load page frame) }
    {
        page < self.settings.pages
            && (frame < self.settings.frames
                && (self.places.get(page).is_cold()
                    && (self.has_hot_parent(page) && self.is_empty_frame(frame))))
    }

    pub(crate) fn may_cool(&self, page: u64) -> bool
        ensures { (x : Rest self.now.settings) → result ≡ needs.may (opening self.now.settings x) (state_of self.now) (events.Event.Cool page) }
    {
        self.is_hot(page) && (page != 0 && !self.has_hot_child(page))
    }

    pub(crate) fn may_rescue(&self, page: u64) -> bool
        ensures { (x : Rest self.now.settings) → result ≡ needs.may (opening self.now.settings x) (state_of self.now) (events.Event.Rescue page) }
    {
        self.places.get(page).is_cooling() && self.has_hot_parent(page)
    }

    pub(crate) fn may_evict(&self, page: u64) -> bool
        ensures { (x : Rest self.now.settings) → result ≡ needs.may (opening self.now.settings x) (state_of self.now) (events.Event.Evict page) }
    {
        self.places.get(page).is_cooling() && (!self.is_dirty(page) && self.is_ripe(page))
    }

    pub(crate) fn fetch(&mut self, alloc: Global, page: u64, pairs: &[Pair]) -> Result<(), Refusal>
        ensures { IfOk result (λ _. Becomes self.old self.new (let s = state_of self.old in record s { page = upd s.page page (steps.with_pairs (map pair_of pairs.now) (s.saved page)); saved = upd s.saved page (steps.with_pairs (map pair_of pairs.now) (s.saved page)) })) }
    {
        let found = self.saved.get(page).with_pairs(alloc, pairs)?;
        let saved = found.copy(alloc)?;
        self.set_page(page, found)?;
        self.set_saved(page, saved)?;
        Ok(())
    }

    pub(crate) fn load(&mut self, alloc: Global, page: u64, frame: u64) -> Result<(), Refusal>
        ensures { IfOk result (λ _. Becomes self.old self.new (let s = state_of self.old in record s { place = upd s.place page (states.Place.Hot frame); page = upd s.page page (s.saved page) })) }
    {
        let saved = self.saved.get(page).copy(alloc)?;
        self.set_place(page, Place::Hot { frame })?;
        self.set_page(page, saved)?;
        Ok(())
    }

    // The page waits behind all others.
    fn enqueue(&mut self, page: u64) -> Result<(), AllocError>
        ensures { IfOk result (λ _. Becomes self.old self.new (record (state_of self.old) { queue = lists.at_end (state_of self.old).queue page })) }
    {
        self.queue.push(page)?;
        Ok(())
    }

    pub(crate) fn cool(&mut self, alloc: Global, page: u64) -> Result<(), Refusal>
        ensures { IfOk result (λ _. Becomes self.old self.new (let s = state_of self.old in record s { place = upd s.place page (states.Place.Cooling (states.frame_of (s.place page)) s.epoch (λ w. needs.is_inside (s.inside w))); queue = lists.at_end s.queue page })) }
    {
        let waited = self.inside.insiders(alloc)?;
        let place = Place::Cooling {
            frame: self.places.get(page).frame(),
            epoch: self.epoch,
            waited,
        };
        self.set_place(page, place)?;
        self.enqueue(page)?;
        Ok(())
    }

    // The page stands there, and waits in the queue no more.
    fn take_out(&mut self, alloc: Global, page: u64, place: Place) -> Result<(), Refusal>
        ensures { IfOk result (λ _. Becomes self.old self.new (let s = state_of self.old in record s { place = upd s.place page (place_of place); queue = lists.without page s.queue })) }
    {
        self.queue = without(alloc, &self.queue, page)?;
        self.set_place(page, place)?;
        Ok(())
    }

    pub(crate) fn rescue(&mut self, alloc: Global, page: u64) -> Result<(), Refusal>
        ensures { IfOk result (λ _. Becomes self.old self.new (let s = state_of self.old in record s { place = upd s.place page (states.Place.Hot (states.frame_of (s.place page))); queue = lists.without page s.queue })) }
    {
        let frame = self.places.get(page).frame();
        self.take_out(alloc, page, Place::Hot { frame })?;
        Ok(())
    }

    pub(crate) fn evict(&mut self, alloc: Global, page: u64) -> Result<(), Refusal>
        ensures { IfOk result (λ _. Becomes self.old self.new (let s = state_of self.old in record s { place = upd s.place page states.Place.Cold; queue = lists.without page s.queue })) }
    {
        self.take_out(alloc, page, Place::Cold)
    }
}
