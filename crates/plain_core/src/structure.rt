// What changes of the tree need.
ghost use Rattle.std.specs.Prelude.{◌≡◌, ◌+◌, ◌==◌, ltb, leb, length, map};
ghost use Rattle.page_model.specs.Pairs as paired;
ghost use Rattle.page_model.specs.Redo as redo;
ghost use Rattle.page_model.specs.Check as check;
ghost use Rattle.core_state.specs.Lists.{is_empty};
ghost use Rattle.core_state.specs.States as states;
ghost use Rattle.core_state.specs.Needs as needs;
ghost use Rattle.core_state.specs.Events as events;
ghost use Rattle.plain_core.specs.Structure.{is_inner_place, may_part, may_split_in, may_lift_in, are_few, may_join_in, is_dead_in, may_purge_in, is_settled_in};
ghost use Rattle.plain_images.specs.Pages.{pair_of};
ghost use Rattle.plain_core.specs.Records.{node_of};
ghost use Rattle.plain_core.specs.States.{Rest, opening, row_of, state_of};

use crate::records::Node;
use crate::state::{Core, Row, Settings};
use plain_images::Pair;

impl Row {
    fn has_no_reader(&self) -> bool
        ensures { result ≡ is_empty (row_of self.now).readers }
    {
        self.readers.is_empty()
    }
}

impl Node {
    // It is inner, and one of its pairs names the page.
    pub(crate) fn names_page(&self, page: u64) -> bool
        ensures { result ≡ check.names_page (node_of self.now) page }
    {
        if !self.live || self.level == 0 {
            return false;
        }
        for pair in &self.pairs {
            if pair.word == page {
                return true;
            }
        }
        false
    }

    fn is_full(&self, room: u64) -> bool
        ensures { result ≡ (length (node_of self.now).pairs == room) }
    {
        self.pairs.len() as u64 == room
    }

    fn has_room(&self, room: u64) -> bool
        ensures { result ≡ ltb (length (node_of self.now).pairs) room }
    {
        (self.pairs.len() as u64) < room
    }

    // The place of a pair, but not of the first one.
    fn is_inner_place(&self, place: u64) -> bool
        ensures { result ≡ is_inner_place (node_of self.now) place }
    {
        0 < place && place < self.pairs.len() as u64
    }

    // It ends where the right one begins, and together they have few pairs.
    fn fits_with(&self, right: &Node, settings: Settings) -> bool
        ensures { result ≡ are_few settings (node_of self.now) (node_of right.now) }
    {
        self.high == right.low && are_few(&self.pairs, &right.pairs, settings.joined)
    }

    // The one pair names the page.
    fn has_only(&self, page: u64) -> bool
        ensures { result ≡ needs.is_single (node_of self.now).pairs page }
    {
        match self.pairs.first() {
            Some(pair) => pair.word == page && self.pairs.len() == 1,
            None => false,
        }
    }

    // The key has a tombstone.
    fn is_dead(&self, dead: u64, key: u64) -> bool
        ensures { result ≡ is_dead_in dead (paired.find key (node_of self.now).pairs) }
    {
        match self.find(key) {
            Some(word) => word == dead,
            None => false,
        }
    }

    fn are_dead(&self, dead: u64, keys: &[u64]) -> bool
        ensures { result ≡ redo.all_keys (λ k. is_dead_in dead (paired.find k (node_of self.now).pairs)) keys.now }
    {
        for key in keys {
            if !self.is_dead(dead, *key) {
                return false;
            }
        }
        true
    }

    fn may_purge(&self, settings: Settings, page: u64, keys: &[u64]) -> bool
        ensures { result ≡ may_purge_in settings (node_of self.now) page keys.now }
    {
        page < settings.pages
            && (self.live && (self.level == 0 && self.are_dead(settings.dead, keys)))
    }
}

// Both lists have at most so many pairs together.
fn are_few(left: &[Pair], right: &[Pair], most: u64) -> bool
    ensures { result ≡ leb (length (map pair_of left.now) + length (map pair_of right.now)) most }
{
    let count = left.len() as u64;
    count <= most && right.len() as u64 <= most - count
}

impl Core {
    fn are_hot(&self, pages: &[u64]) -> bool
        ensures { result ≡ needs.are_hot (state_of self.now) pages.now }
    {
        for page in pages {
            if !self.is_hot(*page) {
                return false;
            }
        }
        true
    }

    // The parent names the left page and has room for one more, and the left page can be parted at the place.
    fn may_part(&self, left: u64, parent: u64, place: u64) -> bool
        ensures { result ≡ may_part self.now.settings (states.nodes_of (state_of self.now)) left parent place }
    {
        let node = &self.pages.get(parent).node;
        parent < self.settings.pages
            && (node.names_page(left)
                && (node.has_room(self.settings.room)
                    && self.pages.get(left).node.is_inner_place(place)))
    }

    // The left page is full, and the right one is free.
    fn can_split(&self, left: u64, right: u64, parent: u64, place: u64) -> bool
        ensures { result ≡ may_split_in self.now.settings (states.nodes_of (state_of self.now)) left right parent place }
    {
        self.pages.get(left).node.is_full(self.settings.room)
            && (right < self.settings.pages
                && (!self.pages.get(right).node.live && self.may_part(left, parent, place)))
    }

    pub(crate) fn may_split(
        &self,
        worker: u64,
        left: u64,
        right: u64,
        parent: u64,
        place: u64,
    ) -> bool
        ensures { (x : Rest self.now.settings) → result ≡ needs.may (opening self.now.settings x) (state_of self.now) (events.Event.Split worker left right parent place) }
    {
        self.are_hot(&[left, right, parent])
            && (self.workers.get(worker).is_open && self.can_split(left, right, parent, place))
    }

    // The root is full and below the greatest level, and the child is free.
    fn can_lift(&self, child: u64) -> bool
        ensures { result ≡ may_lift_in self.now.settings (states.nodes_of (state_of self.now)) child }
    {
        let root = &self.pages.get(0).node;
        root.is_full(self.settings.room)
            && (child < self.settings.pages
                && (!self.pages.get(child).node.live && root.level < self.settings.levels))
    }

    pub(crate) fn may_lift(&self, worker: u64, child: u64) -> bool
        ensures { (x : Rest self.now.settings) → result ≡ needs.may (opening self.now.settings x) (state_of self.now) (events.Event.Lift worker child) }
    {
        self.are_hot(&[0, child]) && (self.workers.get(worker).is_open && self.can_lift(child))
    }

    // The parent names both, which are neighbours and have few pairs together.
    fn can_join(&self, left: u64, right: u64, parent: u64) -> bool
        ensures { result ≡ may_join_in self.now.settings (states.nodes_of (state_of self.now)) left right parent }
    {
        let node = &self.pages.get(parent).node;
        parent < self.settings.pages
            && (node.names_page(left)
                && (node.names_page(right)
                    && self
                        .pages
                        .get(left)
                        .node
                        .fits_with(&self.pages.get(right).node, self.settings)))
    }

    pub(crate) fn may_join(&self, worker: u64, left: u64, right: u64, parent: u64) -> bool
        ensures { (x : Rest self.now.settings) → result ≡ needs.may (opening self.now.settings x) (state_of self.now) (events.Event.Join worker left right parent) }
    {
        self.are_hot(&[left, right, parent])
            && (self.workers.get(worker).is_open && self.can_join(left, right, parent))
    }

    // The root's one child is this.
    fn can_drop(&self, child: u64) -> bool
        ensures { result ≡ needs.may_drop (states.nodes_of (state_of self.now)) child }
    {
        let root = &self.pages.get(0).node;
        0 < root.level && root.has_only(child)
    }

    pub(crate) fn may_drop(&self, worker: u64, child: u64) -> bool
        ensures { (x : Rest self.now.settings) → result ≡ needs.may (opening self.now.settings x) (state_of self.now) (events.Event.Drop worker child) }
    {
        self.are_hot(&[0, child]) && (self.workers.get(worker).is_open && self.can_drop(child))
    }

    // Nobody holds the key's row, and all know of its last end.
    fn is_settled(&self, key: u64) -> bool
        ensures { result ≡ is_settled_in self.now.settings (state_of self.now) key }
    {
        let row = self.rows.get(self.settings.row_of(key));
        row.is_free() && (row.has_no_reader() && row.number <= self.flushed_by_all())
    }

    fn are_settled(&self, keys: &[u64]) -> bool
        ensures { result ≡ redo.all_keys (λ k. is_settled_in self.now.settings (state_of self.now) k) keys.now }
    {
        for key in keys {
            if !self.is_settled(*key) {
                return false;
            }
        }
        true
    }

    pub(crate) fn may_purge(&self, worker: u64, page: u64, keys: &[u64]) -> bool
        ensures { (x : Rest self.now.settings) → result ≡ needs.may (opening self.now.settings x) (state_of self.now) (events.Event.Purge worker page keys.now) }
    {
        self.is_hot(page)
            && (self.workers.get(worker).is_open
                && (self
                    .pages
                    .get(page)
                    .node
                    .may_purge(self.settings, page, keys)
                    && self.are_settled(keys)))
    }
}
