// Pairs move as a whole between two pages.
ghost use Rattle.std.specs.Prelude.{◌≡◌, ◌+◌, ◌≤◌, ◌<◌, length, true};
ghost use Rattle.page_model.specs.Nodes.{free};
ghost use Rattle.page_model.specs.Needs.{key_at};
ghost use Rattle.btree_node.specs.Structure.{left_half, right_half, joined, freed, filled, lifted, lowered};

use super::Node;

impl Node {
    /// Of a full node the left page keeps thirty pairs, and a free right page takes the last thirty. The answer is the
    /// separator, the first key of the right page.
    pub fn split(&mut self, right: &mut Node) -> u64
        requires full { length self.old.node.pairs ≡ 60 }
        requires free { right.old.node ≡ free }
        ensures answer { result ≡ key_at 30 self.old.node.pairs }
        ensures left { self.new ≡ left_half self.old result }
        ensures right { right.new ≡ right_half self.old right.old result }
    {
        let half = self.count() / 2;
        let separator = self.key_at(half);
        right.fill(self.level(), separator, self.high(), self.pairs_from(half));
        self.keep_first(half, separator);
        separator
    }

    /// The left page gains the pairs and the high fence of its right neighbour, which becomes free.
    pub fn join(&mut self, right: &mut Node)
        requires room { length self.old.node.pairs + length right.old.node.pairs ≤ 60 }
        requires neighbours { self.old.node.high ≡ right.old.node.low }
        requires fences { self.old.node.low ≤ self.old.node.high }
        requires right_fences { right.old.node.low ≤ right.old.node.high }
        ensures left { self.new ≡ joined self.old right.old }
        ensures right { right.new ≡ freed right.old }
    {
        let _ = &self.words;
        self.append(right.pairs(), right.high());
        right.set_free();
    }

    /// The root's pairs go into a new child of the root's level, and the root is one level higher, with one pair: key 0
    /// and `word`, by which it names the child.
    pub fn lift(&mut self, child: &mut Node, word: u64)
        requires live { self.old.node.live ≡ true }
        requires level { self.old.node.level < 7 }
        requires low { self.old.node.low ≡ 0 }
        requires high { 0 < self.old.node.high }
        ensures root { self.new ≡ lifted self.old word }
        ensures child { child.new ≡ filled child.old self.old.node.level 0 self.old.node.high self.old.node.pairs }
    {
        let level = self.level();
        let high = self.high();
        child.fill(level, 0, high, self.pairs());
        self.fill(level + 1, 0, high, &[0, word]);
    }

    /// The root takes the level and the pairs of its one child, which becomes free.
    pub fn drop_root(&mut self, child: &mut Node)
        requires live { self.old.node.live ≡ true }
        requires low { child.old.node.low ≡ self.old.node.low }
        requires high { child.old.node.high ≡ self.old.node.high }
        ensures root { self.new ≡ lowered self.old child.old }
        ensures child { child.new ≡ freed child.old }
    {
        self.fill(child.level(), self.low(), self.high(), child.pairs());
        child.set_free();
    }
}
