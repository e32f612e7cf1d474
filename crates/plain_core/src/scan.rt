// The next pair of a scan: what follows a key.
ghost use Rattle.std.specs.Prelude.{◌≡◌, map, IfOk};
ghost use Rattle.core_state.specs.Needs as needs;
ghost use Rattle.core_state.specs.Steps as steps;
ghost use Rattle.core_state.specs.Events as events;
ghost use Rattle.plain_images.specs.Pages.{pair_of};
ghost use Rattle.plain_core.specs.States.{Rest, Becomes, format_of, opening, state_of};
ghost use Rattle.plain_core.specs.Events.{answer_of};

use crate::event::Following;
use crate::refusal::Refusal;
use crate::state::{Core, Settings};
use plain_images::Pair;
use std::alloc::Global;

// The least live pair at or above the key, or that there is none up to the high fence.
fn following(settings: Settings, key: u64, pairs: &[Pair], high: u64) -> Following
    ensures { (x : Rest settings) → answer_of result ≡ needs.following (format_of settings x) key (map pair_of pairs.now) high }
{
    for pair in pairs {
        if key <= pair.key && pair.word < settings.dead {
            return Following::Pair {
                key: pair.key,
                value: pair.word,
            };
        }
    }
    Following::Gap { high }
}

impl Following {
    fn is_same(self, other: Following) -> bool
        ensures { result ≡ needs.is_following (answer_of self) (answer_of other) }
    {
        match self {
            Following::Pair { key, value } => match other {
                Following::Pair { key: k, value: v } => key == k && value == v,
                Following::Gap { .. } => false,
            },
            Following::Gap { high } => match other {
                Following::Pair { .. } => false,
                Following::Gap { high: h } => high == h,
            },
        }
    }
}

impl Core {
    // The row of the pair that follows is held by the worker.
    fn holds_answer(&self, worker: u64, answer: Following) -> bool
        ensures { (x : Rest self.now.settings) → result ≡ needs.holds_answer (opening self.now.settings x) (state_of self.now) worker (answer_of answer) }
    {
        match answer {
            Following::Pair { key, .. } => {
                self.rows.get(self.settings.row_of(key)).holds(worker)
            }
            Following::Gap { .. } => true,
        }
    }

    pub(crate) fn may_follow(&self, worker: u64, page: u64, key: u64, answer: Following) -> bool
        ensures { (x : Rest self.now.settings) → result ≡ needs.may (opening self.now.settings x) (state_of self.now) (events.Event.Next worker page key (answer_of answer)) }
    {
        let node = &self.pages.get(page).node;
        let follows = following(self.settings, key, &node.pairs, node.high);
        self.is_hot(page)
            && (self.workers.get(worker).is_open
                && ((page < self.settings.pages && node.is_leaf_of(key))
                    && (answer.is_same(follows) && self.holds_answer(worker, answer))))
    }

    // The worker touches the page.
    fn look(&mut self, alloc: Global, worker: u64, page: u64) -> Result<(), Refusal>
        ensures { IfOk result (λ _. Becomes self.old self.new (steps.looks (state_of self.old) worker page)) }
    {
        let met = self
            .workers
            .get(worker)
            .at_page(alloc, worker, self.pages.get(page))?;
        self.set_worker(worker, met)?;
        Ok(())
    }

    // A pair that follows is read; of a gap the page alone is touched.
    pub(crate) fn follow(
        &mut self,
        alloc: Global,
        worker: u64,
        page: u64,
        answer: Following,
    ) -> Result<(), Refusal>
        ensures { IfOk result (λ _. (x : Rest self.old.settings) → Becomes self.old self.new (steps.follows (opening self.old.settings x) (state_of self.old) worker page (answer_of answer))) }
    {
        match answer {
            Following::Pair { key, .. } => self.read(alloc, worker, page, key),
            Following::Gap { .. } => self.look(alloc, worker, page),
        }
    }
}
