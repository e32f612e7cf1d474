// The table as its callers see it.
ghost use Rattle.std.specs.Prelude.{◌≡◌, ◌<◌, length, replicate, slice_set, IfOk, IfSome};

use super::kept::{FREE, Kept, NOBODY, from_byte, from_word, to_byte, to_word};
use std::alloc::{AllocError, Global};
use std::marker::Model;

/// What is kept of each page, 31 bytes a page. All memory is taken when the table is made.
#[derive(Drop)]
pub struct ColdPages {
    gsns: Vec<u64>,
    lasts: Vec<u8>,
    levels: Vec<u8>,
    lows: Vec<u64>,
    highs: Vec<u64>,
    counts: Vec<u8>,
    parents: Vec<u32>,
}

impl Model for ColdPages {
    ghost use Rattle.std.specs.Prelude.{List};
    ghost use Rattle.cold_pages.specs.declared.kept.Kept.{Kept};
    ghost use Rattle.cold_pages.specs.Inside.{rows, AreEven};

    ghost Value = { List Kept };

    ghost view = { λ s. rows s.gsns.items s.lasts.items s.levels.items s.lows.items s.highs.items s.counts.items s.parents.items };

    ghost invariant = { λ s. AreEven s.gsns.items s.lasts.items s.levels.items s.lows.items s.highs.items s.counts.items s.parents.items };
}

impl ColdPages {
    ghost use Rattle.cold_pages.specs.Kept.{nothing, kept_of};

    /// The table of so many pages, of which nothing is known yet. The one error is that memory is refused.
    pub fn new(alloc: Global, pages: u32) -> Result<ColdPages, AllocError>
        ensures { IfOk result (λ it. it ≡ replicate pages nothing) }
    {
        let pages = pages as usize;
        let mut gsns = Vec::new(alloc);
        gsns.resize(pages, 0)?;
        let mut lasts = Vec::new(alloc);
        lasts.resize(pages, 0)?;
        let mut levels = Vec::new(alloc);
        levels.resize(pages, FREE)?;
        let mut lows = Vec::new(alloc);
        lows.resize(pages, 0)?;
        let mut highs = Vec::new(alloc);
        highs.resize(pages, 0)?;
        let mut counts = Vec::new(alloc);
        counts.resize(pages, 0)?;
        let mut parents = Vec::new(alloc);
        parents.resize(pages, NOBODY)?;
        Ok(ColdPages {
            gsns,
            lasts,
            levels,
            lows,
            highs,
            counts,
            parents,
        })
    }

    /// How many pages there are.
    pub fn pages(&self) -> u32
        ensures { result ≡ length self.now }
    {
        self.gsns.len() as u32
    }

    /// What is kept of a page.
    pub fn get(&self, page: u32) -> Kept
        requires { page < length self.now }
        ensures answer { result ≡ kept_of self.now page }
        ensures level { IfSome result.level (λ level. level < 255) }
        ensures parent { IfSome result.parent (λ q. q < 4294967295) }
    {
        let place = page as usize;
        Kept {
            gsn: self.gsns[place],
            last: self.lasts[place],
            level: from_byte(self.levels[place]),
            low: self.lows[place],
            high: self.highs[place],
            count: self.counts[place],
            parent: from_word(self.parents[place]),
        }
    }

    /// Keeps this of a page. No node has level 255, and no page is 4294967295.
    pub fn note(&mut self, page: u32, kept: Kept)
        requires page { page < length self.old }
        requires level { IfSome kept.level (λ level. level < 255) }
        requires parent { IfSome kept.parent (λ q. q < 4294967295) }
        ensures { self.new ≡ slice_set self.old page kept }
    {
        let place = page as usize;
        self.gsns[place] = kept.gsn;
        self.lasts[place] = kept.last;
        self.levels[place] = to_byte(kept.level);
        self.lows[place] = kept.low;
        self.highs[place] = kept.high;
        self.counts[place] = kept.count;
        self.parents[place] = to_word(kept.parent);
    }
}
