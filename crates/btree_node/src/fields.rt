// The fields of a page.
ghost use Rattle.std.specs.Prelude.{◌≡◌, ◌<◌, ◌≤◌, length, drop};
ghost use Rattle.page_model.specs.Nodes.{free};
ghost use Rattle.page_model.specs.Needs.{key_at};
ghost use Rattle.page_model.specs.Page.{new_page, empty_leaf, word_at};
ghost use Rattle.btree_node.specs.Words.{flat, Fits};

use super::Node;

impl Node {
    /// A leaf without entries, as page `number`.
    pub fn empty_leaf(number: u32, low: u64, high: u64) -> Node
        ensures { result ≡ new_page number (empty_leaf low high) }
    {
        let mut words = [0; 126];
        words[0] = u64::from(number);
        words[3] = 1 << 24;
        words[4] = low;
        words[5] = high;
        Node { words }
    }

    /// A free page, as page `number`.
    pub fn free(number: u32) -> Node
        ensures { result ≡ new_page number free }
    {
        let mut words = [0; 126];
        words[0] = u64::from(number);
        words[3] = 2 << 24;
        Node { words }
    }

    /// The page's own number.
    pub fn number(&self) -> u64
        ensures { result ≡ self.now.number }
    {
        self.words[0]
    }

    /// The number of the last record that changed the page.
    pub fn gsn(&self) -> u64
        ensures { result ≡ self.now.gsn }
    {
        self.words[1]
    }

    pub fn set_gsn(&mut self, gsn: u64)
        ensures { self.new ≡ record self.old { gsn = gsn } }
    {
        self.words[1] = gsn;
    }

    /// The generation that saved the page.
    pub fn generation(&self) -> u64
        ensures { result ≡ self.now.generation }
    {
        self.words[2]
    }

    pub fn set_generation(&mut self, generation: u64)
        ensures { self.new ≡ record self.old { generation = generation } }
    {
        self.words[2] = generation;
    }

    /// The log of the last record that changed the page, 0 for none.
    pub fn last_log(&self) -> u32
        ensures answer { result ≡ self.now.last_log }
        ensures bound { result < 256 }
    {
        (self.words[3] / 65536 % 256) as u32
    }

    pub fn set_last_log(&mut self, log: u32)
        requires { log < 256 }
        ensures { self.new ≡ record self.old { last_log = log } }
    {
        let old = self.words[3] / 65536 % 256;
        self.words[3] = self.words[3] - 65536 * old + 65536 * u64::from(log);
    }

    /// Whether the page holds a node; else it is free.
    pub fn is_live(&self) -> bool
        ensures { result ≡ self.now.node.live }
    {
        self.words[3] / 16777216 == 1
    }

    /// The level of the node: 0 for a leaf.
    pub fn level(&self) -> u8
        ensures answer { result ≡ self.now.node.level }
        ensures bound { result ≤ 7 }
    {
        (self.words[3] / 256 % 256) as u8
    }

    /// The least key that the node may hold.
    pub fn low(&self) -> u64
        ensures { result ≡ self.now.node.low }
    {
        self.words[4]
    }

    /// The least key above those that the node may hold.
    pub fn high(&self) -> u64
        ensures { result ≡ self.now.node.high }
    {
        self.words[5]
    }

    /// How many pairs the node has.
    pub fn count(&self) -> usize
        ensures answer { result ≡ length self.now.node.pairs }
        ensures bound { result ≤ 60 }
    {
        (self.words[3] % 256) as usize
    }

    /// The key of pair `i`.
    pub fn key_at(&self, i: usize) -> u64
        requires { i < length self.now.node.pairs }
        ensures { result ≡ key_at i self.now.node.pairs }
    {
        let words = &self.words;
        words[6 + 2 * i]
    }

    /// The word of pair `i`: a value word in a leaf, a child's word in an inner node.
    pub fn word_at(&self, i: usize) -> u64
        requires { i < length self.now.node.pairs }
        ensures { result ≡ word_at i self.now.node.pairs }
    {
        let words = &self.words;
        words[7 + 2 * i]
    }

    /// The words of the pairs, key and word in turn.
    pub fn pairs(&self) -> &[u64]
        ensures answer { result.now ≡ flat self.now.node.pairs }
        ensures bound { length result.now ≤ 120 }
        ensures fits { Fits self.now }
    {
        self.pairs_from(0)
    }

    /// The words of the pairs from pair `i` on.
    pub fn pairs_from(&self, i: usize) -> &[u64]
        requires { i ≤ length self.now.node.pairs }
        ensures answer { result.now ≡ flat (drop i self.now.node.pairs) }
        ensures bound { length result.now ≤ 120 }
        ensures fits { Fits self.now }
    {
        let words = &self.words;
        let end = 6 + 2 * (words[3] % 256) as usize;
        &words[6 + 2 * i..end]
    }
}
