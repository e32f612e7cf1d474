// Keys are searched in place.
ghost use Rattle.std.specs.Prelude.{◌≡◌, ◌≤◌, ◌<◌, length, IfOk, IfErr};
ghost use Rattle.page_model.specs.Pairs.{find, route};
ghost use Rattle.page_model.specs.Needs.{key_at};
ghost use Rattle.page_model.specs.Nodes.{covers};
ghost use Rattle.btree_node.specs.Words.{Fits};
ghost use Rattle.btree_node.specs.Inside.{place, IsAt, IsGap};

use super::Node;

impl Node {
    /// Whether the page is a node that may hold the key.
    pub fn covers(&self, key: u64) -> bool
        ensures { result ≡ covers self.now.node key }
    {
        self.is_live() && self.low() <= key && key < self.high()
    }

    /// The word of a key, if it has an entry.
    pub fn find(&self, key: u64) -> Option<u64>
        ensures { result ≡ find key self.now.node.pairs }
    {
        match self.search(key) {
            Ok(at) => Some(self.word_at(at)),
            Err(_) => None,
        }
    }

    /// The word of the child whose keys this one is among: that of the last pair with a key up to this one.
    pub fn route(&self, key: u64) -> u64
        requires inner { 0 < length self.now.node.pairs }
        requires above { key_at 0 self.now.node.pairs ≤ key }
        ensures { result ≡ route self.now.node.pairs key 0 }
    {
        let _ = &self.words;
        match self.search(key) {
            Ok(at) => self.word_at(at),
            Err(at) => self.word_at(at - 1),
        }
    }

    /// The place of a key that has an entry, else the place where its entry would stand.
    pub(crate) fn search(&self, key: u64) -> Result<usize, usize>
        ensures found { IfOk result (IsAt key self.now.node.pairs) }
        ensures gap { IfErr result (IsGap key self.now.node.pairs) }
        ensures fits { Fits self.now }
    {
        let words = &self.words;
        let at = self.place(key);
        if at == self.count() {
            return Err(at);
        }
        if words[6 + 2 * at] == key {
            return Ok(at);
        }
        Err(at)
    }

    /// How many keys stand before this one.
    pub(crate) fn place(&self, key: u64) -> usize
        ensures before { result ≡ place key self.now.node.pairs }
        ensures within { result ≤ length self.now.node.pairs }
        ensures fits { Fits self.now }
    {
        let words = &self.words;
        let mut low = 0;
        let mut high = self.count();
        while low < high {
            let middle = low + (high - low) / 2;
            if words[6 + 2 * middle] < key {
                low = middle + 1;
            } else {
                high = middle;
            }
        }
        low
    }
}
