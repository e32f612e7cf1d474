// A page leaves its frame, or comes into one.
ghost use Rattle.std.specs.Prelude.{◌≡◌, ◌<◌, length, slice_set, None, IfSome};
ghost use Rattle.page_model.specs.Needs.{key_at};
ghost use Rattle.page_model.specs.Page.{word_at};
ghost use Rattle.page_model.specs.Pairs.{Has};
ghost use Rattle.cold_pages.specs.Kept.{AreWithin, children, come, kept_of, left, named, own};

use super::compare::level_of;
use super::kept::Kept;
use super::pages::ColdPages;
use btree_node::Node;

impl ColdPages {
    /// A page has left its frame with these contents: they are kept, and of each page that it names that it does.
    pub fn leave(&mut self, page: u32, node: &Node)
        requires page { page < length self.old }
        requires within { AreWithin (length self.old) node.now.node }
        ensures { self.new ≡ left self.old page node.now }
    {
        // There are fewer pages than a parent's word can say.
        let _pages = self.pages();
        self.note_own(page, node);
        self.name(Some(page), node);
    }

    /// A page with these contents has come into a frame: of the pages that it names it is not kept any more that it does.
    pub fn come(&mut self, node: &Node)
        requires within { AreWithin (length self.old) node.now.node }
        ensures { self.new ≡ come self.old node.now.node }
    {
        self.name(None, node);
    }

    // What the page itself says; who names it is as before.
    fn note_own(&mut self, page: u32, node: &Node)
        requires page { page < length self.old }
        ensures { self.new ≡ slice_set self.old page (own (kept_of self.old page) node.now) }
    {
        let parent = self.get(page).parent;
        let kept = Kept {
            gsn: node.gsn(),
            last: node.last_log() as u8,
            level: level_of(node),
            low: node.low(),
            high: node.high(),
            count: node.count() as u8,
            parent,
        };
        self.note(page, kept);
    }

    // Of each page that the node names: by whom it is named, or by none.
    fn name(&mut self, parent: Option<u32>, node: &Node)
        requires parent { IfSome parent (λ q. q < 4294967295) }
        requires within { AreWithin (length self.old) node.now.node }
        ensures { self.new ≡ named parent (children node.now.node) self.old }
    {
        if node.level() == 0 {
            return;
        }
        for i in 0..node.count() {
            self.name_one(parent, node.key_at(i), node.word_at(i));
        }
    }

    // One page is named so.
    fn name_one(&mut self, parent: Option<u32>, from: u64, child: u64)
        requires parent { IfSome parent (λ q. q < 4294967295) }
        requires child { child < length self.old }
        ensures { self.new ≡ slice_set self.old child (record (kept_of self.old child) { low = from; parent = parent }) }
    {
        let _pages = self.pages();
        let page = child as u32;
        let mut kept = self.get(page);
        kept.low = from;
        kept.parent = parent;
        self.note(page, kept);
    }
}
