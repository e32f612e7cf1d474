// The set as its callers see it.
ghost use Rattle.std.specs.Prelude.{◌≡◌, ◌<◌, true, false, length, replicate, slice_set, IfOk, MatchOption};

use super::blocks::{BLOCK, first_mark, first_used};
use std::alloc::{AllocError, Global};
use std::marker::Model;

/// A set of page numbers below a bound. It has one mark a page, and counts the pages of each block that are in, so that the least one is
/// found by a look at each block and then at the pages of one. All memory is taken when the set is made.
#[derive(Drop)]
pub struct FreePages {
    marks: Vec<bool>,
    in_block: Vec<u32>,
    total: u32,
}

impl Model for FreePages {
    ghost use Rattle.std.specs.Prelude.{List, Bool};
    ghost use Rattle.free_pages.specs.Inside.{IsCounted};
    ghost use Rattle.free_pages.specs.declared.blocks.TheConstants.{BLOCK};

    ghost Value = { List Bool };

    ghost view = { λ s. s.marks.items };

    ghost invariant = { λ s. IsCounted BLOCK s.marks.items s.in_block.items s.total };
}

impl FreePages {
    ghost use Rattle.free_pages.specs.Pages.{count, is_in, IsEmpty, IsLeast};

    /// The set with no page in it, of so many pages. The one error is that memory is refused.
    pub fn new(alloc: Global, pages: u32) -> Result<FreePages, AllocError>
        ensures { IfOk result (λ s. s ≡ replicate pages false) }
    {
        let pages = pages as usize;
        let mut marks = Vec::new(alloc);
        marks.resize(pages, false)?;
        let mut in_block = Vec::new(alloc);
        in_block.resize(pages.div_ceil(BLOCK), 0)?;
        Ok(FreePages {
            marks,
            in_block,
            total: 0,
        })
    }

    /// How many pages there are, in the set or not.
    pub fn pages(&self) -> u32
        ensures { result ≡ length self.now }
    {
        self.marks.len() as u32
    }

    /// How many pages are in the set.
    pub fn len(&self) -> u32
        ensures { result ≡ count self.now }
    {
        self.total
    }

    /// Whether a page is in the set.
    pub fn contains(&self, page: u32) -> bool
        requires { page < length self.now }
        ensures { result ≡ is_in self.now page }
    {
        self.marks[page as usize]
    }

    /// The least page of the set.
    pub fn least(&self) -> Option<u32>
        ensures { MatchOption result (IsEmpty self.now) (λ page. IsLeast self.now page) }
    {
        let block = first_used(&self.in_block)?;
        let start = block * BLOCK;
        let place = first_mark(&self.marks[start..])?;
        Some((start + place) as u32)
    }

    /// Puts a page into the set. One that is in stays.
    pub fn insert(&mut self, page: u32)
        requires { page < length self.old }
        ensures { self.new ≡ slice_set self.old page true }
    {
        let place = page as usize;
        if self.marks[place] {
            return;
        }
        self.marks[place] = true;
        self.in_block[place / BLOCK] += 1;
        self.total += 1;
    }

    /// Takes a page out of the set, if it is in.
    pub fn remove(&mut self, page: u32)
        requires { page < length self.old }
        ensures { self.new ≡ slice_set self.old page false }
    {
        let place = page as usize;
        if !self.marks[place] {
            return;
        }
        self.marks[place] = false;
        self.in_block[place / BLOCK] -= 1;
        self.total -= 1;
    }
}
