// The pages that are free.
ghost use Rattle.std.specs.Prelude.{◌≡◌, ◌≤◌, ◌<◌, ◌^◌, length, reverse, IfOk};
ghost use Rattle.std.specs.List.{insert};
ghost use Rattle.engine_calls.specs.core_calls.Room.{frees_from};
ghost use Rattle.engine_trait.specs.tidy_rules.Laws.{put_in};
ghost use Rattle.session_state.specs.Free.{first_of, nodes_in, without_first};

use btree_descent::BtreeNodeNode as Node;
use std::alloc::{AllocError, Global};
use std::marker::Model;

// For how many free pages there is room, at least: more pages no disk has.
const ROOM: usize = 1 << 16;

// At which place the page comes among these, the greatest first.
fn place_of(falling: &[u32], page: u32) -> usize
    ensures within { result ≤ length falling.now }
    ensures place { reverse (insert falling.now result page) ≡ put_in page (reverse falling.now) }
{
    for n in 0..falling.len() {
        let place = falling.len() - n;
        if page < falling[place - 1] {
            return place;
        }
    }
    0
}

/// Free pages in rising order. They are kept the greatest first, so that the least one is taken from the end. Room for all is reserved.
#[derive(Drop)]
pub struct FreePages {
    falling: Vec<u32>,
}

impl Model for FreePages {
    ghost use Rattle.std.specs.Prelude.{reverse, vec_capacity, List, ℕ, ◌≤◌, ◌^◌};

    ghost Value = { List ℕ };

    ghost view = { λ f. reverse f.falling.items };

    ghost invariant = { λ f. 2 ^ 16 ≤ vec_capacity f.falling };
}

impl FreePages {
    /// Those of these pages. The one error is that memory is refused.
    pub fn new(alloc: Global, pages: &[Node]) -> Result<FreePages, AllocError>
        requires few { length pages.now < 2 ^ 32 }
        ensures { IfOk result (λ f. f ≡ frees_from (nodes_in pages.now) (length pages.now) 0) }
    {
        let mut falling = Vec::with_capacity(alloc, pages.len().max(ROOM))?;
        for n in 0..pages.len() {
            let page = pages.len() - (n + 1);
            if !pages[page].is_live() {
                falling.push_reserved(page as u32);
            }
        }
        Ok(FreePages { falling })
    }

    /// How many there are.
    pub fn len(&self) -> usize
        ensures { result ≡ length self.now }
    {
        self.falling.len()
    }

    /// The least one.
    pub fn least(&self) -> Option<u32>
        ensures { result ≡ first_of self.now }
    {
        self.falling.last().copied()
    }

    /// The least one is free no more.
    pub fn take(&mut self)
        ensures { self.new ≡ without_first self.old }
    {
        self.falling.pop();
    }

    /// A page is free again. It takes no memory.
    pub fn put(&mut self, page: u32)
        requires room { length self.old < 2 ^ 16 }
        ensures { self.new ≡ put_in page self.old }
    {
        let place = place_of(&self.falling, page);
        match self.falling.insert(place, page) {
            Ok(()) => {}
            // Room is reserved.
            Err(_) => unreachable!(),
        }
    }
}
