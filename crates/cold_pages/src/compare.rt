// A page that was loaded is compared with what is kept.
ghost use Rattle.std.specs.Prelude.{◌≡◌, ◌<◌, ◌↔◌, false, length, IsTrue, IfSome};
ghost use Rattle.cold_pages.specs.Kept.{kept_of, level_of};
ghost use Rattle.cold_pages.specs.Inside.{IsFree};
ghost use Rattle.cold_pages.specs.Compared.{HasFields, IsKeptUnder, AreAsKept, IsAsKept};

use super::kept::Kept;
use super::pages::ColdPages;
use btree_node::Node;

impl ColdPages {
    /// Whether a loaded page has the numbers, the level and the fences that were kept. Of a leaf's entries nothing is asked; an inner node has as
    /// many pairs as were kept, and each names a page that was kept so; a free page says nothing else.
    pub fn is_as_kept(&self, page: u32, loaded: &Node) -> bool
        requires { page < length self.now }
        ensures { IsTrue result ↔ IsAsKept self.now page loaded.now }
    {
        has_fields(&self.get(page), loaded)
            && (loaded.is_live() || is_free(loaded))
            && (loaded.level() == 0 || self.are_as_kept(page, loaded))
    }

    // Whether an inner node has as many pairs as were kept, and each names a page that was kept so.
    fn are_as_kept(&self, page: u32, loaded: &Node) -> bool
        requires { page < length self.now }
        ensures { IsTrue result ↔ AreAsKept self.now page loaded.now.node.pairs }
    {
        if loaded.count() != usize::from(self.get(page).count) {
            return false;
        }
        for i in 0..loaded.count() {
            if !self.is_kept_under(page, loaded.key_at(i), loaded.word_at(i)) {
                return false;
            }
        }
        true
    }

    // Whether a child is kept as one that this page names from this key on.
    fn is_kept_under(&self, page: u32, from: u64, child: u64) -> bool
        ensures { IsTrue result ↔ IsKeptUnder self.now page from child }
    {
        if child >= u64::from(self.pages()) {
            return false;
        }
        let kept = self.get(child as u32);
        kept.parent == Some(page) && kept.low == from
    }
}

// The level of a node; a free page has none.
pub(crate) fn level_of(node: &Node) -> Option<u8>
    ensures answer { result ≡ level_of node.now.node }
    ensures bound { IfSome result (λ level. level < 255) }
{
    if !node.is_live() {
        return None;
    }
    Some(node.level())
}

// Whether a page has the numbers, the level and the fences that were kept.
fn has_fields(kept: &Kept, loaded: &Node) -> bool
    ensures { IsTrue result ↔ HasFields kept.now loaded.now }
{
    loaded.gsn() == kept.gsn
        && loaded.last_log() == u32::from(kept.last)
        && level_of(loaded) == kept.level
        && loaded.low() == kept.low
        && loaded.high() == kept.high
}

// Whether a page is free, and has no level and no pairs.
fn is_free(loaded: &Node) -> bool
    ensures { IsTrue result ↔ IsFree loaded.now.node }
{
    !loaded.is_live() && loaded.level() == 0 && loaded.count() == 0
}
