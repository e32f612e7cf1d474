// A cut: up to which number the logs are needed no more, and where they begin then.
ghost use Rattle.std.specs.Prelude.{◌≡◌, ◌&&◌, ◌||◌, not, leb, min, max, ℕ, ◌++◌, map, IfOk};
ghost use Rattle.map_model.specs.Lists.{any, all};
ghost use Rattle.core_state.specs.image_model.Entries as logged;
ghost use Rattle.core_state.specs.Needs as needs;
ghost use Rattle.core_state.specs.Steps as steps;
ghost use Rattle.core_state.specs.Events as events;
ghost use Rattle.plain_core.specs.Inside.{is_unripe, is_ripe_in, is_saved, heads_at};
ghost use Rattle.plain_core.specs.Tables.{at};
ghost use Rattle.plain_core.specs.Records.{page_of, ref_of, kind_of, entry_of, entries_of};
ghost use Rattle.plain_core.specs.States.{Rest, Becomes, opening, state_of};

use crate::records::{Entry, Kind, Page, Ref};
use crate::refusal::Refusal;
use crate::state::Core;
use crate::table::{Placed, Table};
use std::alloc::{AllocError, Global};

impl Kind {
    fn is_end(self) -> bool
        ensures { result ≡ logged.is_end (kind_of self) }
    {
        match self {
            Kind::Commit | Kind::Abort => true,
            _ => false,
        }
    }
}

// The last is an end of the entry's transaction, flushed in its own log, and everywhere as far as it needs.
fn is_ripe_end(flushed: &Table<u64>, by_all: u64, entry: &Entry, last: &Entry) -> bool
    ensures { result ≡ needs.is_ripe_end (at flushed.now) by_all (entry_of entry.now) (entry_of last.now) }
{
    last.kind.is_end()
        && ((last.log == entry.log && last.txn == entry.txn)
            && (last.number <= *flushed.get(last.log) && last.need <= by_all))
}

fn has_ripe_end(flushed: &Table<u64>, by_all: u64, entry: &Entry, entries: &[Entry]) -> bool
    ensures { result ≡ any (λ e. needs.is_ripe_end (at flushed.now) by_all (entry_of entry.now) e) (entries_of entries.now) }
{
    for last in entries {
        if is_ripe_end(flushed, by_all, entry, last) {
            return true;
        }
    }
    false
}

// The entry is a record up to the number, of a transaction that is open or whose end is not ripe.
fn is_unripe(
    flushed: &Table<u64>,
    by_all: u64,
    number: u64,
    entry: &Entry,
    entries: &[Entry],
) -> bool
    ensures { result ≡ is_unripe (at flushed.now) by_all number (entries_of entries.now) (entry_of entry.now) }
{
    entry.kind.is_record()
        && (entry.number <= number && !has_ripe_end(flushed, by_all, entry, entries))
}

fn has_unripe(flushed: &Table<u64>, by_all: u64, number: u64, entries: &[Entry]) -> bool
    ensures { result ≡ any (is_unripe (at flushed.now) by_all number (entries_of entries.now)) (entries_of entries.now) }
{
    for entry in entries {
        if is_unripe(flushed, by_all, number, entry, entries) {
            return true;
        }
    }
    false
}

// The saved contents of the pages have changes up to the number.
fn are_saved(saved: &Table<Page>, number: u64, refs: &[Ref]) -> bool
    ensures { result ≡ all (λ f. leb number (page_of (at saved.now f.page)).gsn) (map ref_of refs.now) }
{
    for changed in refs {
        if saved.get(changed.page).number < number {
            return false;
        }
    }
    true
}

// The saved contents of its pages have what the entry changed, if it is one up to the number.
fn is_saved(saved: &Table<Page>, number: u64, entry: &Entry) -> bool
    ensures { result ≡ is_saved (λ p. page_of (at saved.now p)) number (entry_of entry.now) }
{
    number < entry.number || are_saved(saved, entry.number, &entry.refs)
}

fn is_saved_up_to(saved: &Table<Page>, number: u64, entries: &[Entry]) -> bool
    ensures { result ≡ all (is_saved (λ p. page_of (at saved.now p)) number) (entries_of entries.now) }
{
    for entry in entries {
        if !is_saved(saved, number, entry) {
            return false;
        }
    }
    true
}

// The list, and behind it where the logs at these places begin after a cut that asks for heads.
fn with_heads(
    list: Vec<Placed<u64>>,
    heads: &Table<u64>,
    asked: &Table<u64>,
    number: u64,
    places: &[Placed<u64>],
) -> Result<Vec<Placed<u64>>, AllocError>
    ensures { IfOk result (λ v. v.items ≡ list.items ++ heads_at (λ w. max (at heads.now w) (min (at asked.now w) number)) places.now) }
{
    let mut all = list;
    for placed in places {
        let place = placed.place;
        let head = (*asked.get(place)).min(number);
        all.push(Placed {
            place,
            value: (*heads.get(place)).max(head),
        })?;
    }
    Ok(all)
}

impl Table<u64> {
    // Each log begins behind the number that is asked for it, but not above the number of the cut, and no earlier than before.
    fn cut(&self, alloc: Global, asked: &Table<u64>, number: u64) -> Result<Table<u64>, AllocError>
        ensures { IfOk result (λ t. (w : ℕ) → at t w ≡ max (at self.now w) (min (at asked.now w) number)) }
    {
        let own = with_heads(Vec::new(alloc), self, asked, number, &self.changes)?;
        let changes = with_heads(own, self, asked, number, &asked.changes)?;
        Ok(Table {
            default: self.default.max(asked.default.min(number)),
            changes,
        })
    }
}

impl Core {
    fn is_ripe_up_to(&self, number: u64) -> bool
        ensures { result ≡ is_ripe_in self.now.settings (state_of self.now) number }
    {
        !has_unripe(&self.flushed, self.flushed_by_all(), number, &self.entries)
    }

    fn is_saved_up_to(&self, number: u64) -> bool
        ensures { result ≡ needs.is_saved_up_to (state_of self.now) number }
    {
        is_saved_up_to(&self.saved, number, &self.entries)
    }

    pub(crate) fn may_cut(&self, number: u64) -> bool
        ensures { (x : Rest self.now.settings) (heads : ℕ → ℕ) → result ≡ needs.may (opening self.now.settings x) (state_of self.now) (events.Event.Cut number heads) }
    {
        number <= self.flushed_by_all()
            && (self.is_ripe_up_to(number) && self.is_saved_up_to(number))
    }

    pub(crate) fn cut_off(
        &mut self,
        alloc: Global,
        number: u64,
        heads: &Table<u64>,
    ) -> Result<(), Refusal>
        ensures { IfOk result (λ _. (x : Rest self.old.settings) → Becomes self.old self.new (steps.cut_off (opening self.old.settings x) (state_of self.old) number (at heads.now))) }
    {
        self.heads = self.heads.cut(alloc, heads, number)?;
        self.floor = self.floor.max(self.flushed_by_all());
        self.cut = self.cut.max(number);
        Ok(())
    }
}
