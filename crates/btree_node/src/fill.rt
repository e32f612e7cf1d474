// What stands in a page is set as a whole, or ends otherwise. Pairs come as words, key and word in turn.
ghost use Rattle.std.specs.Prelude.{◌≡◌, ◌↔◌, ◌+◌, ◌-◌, ◌*◌, ◌%◌, ◌++◌, ◌≤◌, [], length, take, drop, replicate, IsTrue};
ghost use Rattle.btree_node.specs.Words.{pairs_of, IsOrdered};
ghost use Rattle.btree_node.specs.Structure.{filled, extended, left_half, freed};
ghost use Rattle.btree_node.specs.Inside.{ended, shortened};

use super::Node;
use crate::spelling::is_rising;

impl Node {
    /// The page becomes a node of this level, with these fences and pairs, whatever stood there.
    pub fn fill(&mut self, level: u8, low: u64, high: u64, pairs: &[u64])
        requires level { level ≤ 7 }
        requires room { length pairs.now ≤ 120 }
        requires whole { length pairs.now % 2 ≡ 0 }
        requires ordered { IsOrdered low (pairs_of pairs.now) high }
        ensures { self.new ≡ filled self.old level low high (pairs_of pairs.now) }
    {
        let log = self.words[3] / 65536 % 256;
        end_with(&mut self.words, 6, pairs);
        self.words[3] = pairs.len() as u64 / 2 + 256 * u64::from(level) + 65536 * log + 16777216;
        self.words[4] = low;
        self.words[5] = high;
    }

    /// The page becomes free.
    pub fn set_free(&mut self)
        ensures { self.new ≡ freed self.old }
    {
        let log = self.words[3] / 65536 % 256;
        end_with(&mut self.words, 4, &[]);
        self.words[3] = 65536 * log + 33554432;
    }

    /// Whether these pairs may stand behind the node's own, under this high fence.
    pub fn can_append(&self, pairs: &[u64], high: u64) -> bool
        requires { length pairs.now % 2 ≡ 0 }
        ensures { IsTrue result ↔ IsOrdered self.now.node.low (self.now.node.pairs ++ pairs_of pairs.now) high }
    {
        let _ = &self.words;
        let count = self.count();
        if count == 0 {
            return is_rising(self.low(), high, pairs);
        }
        let last = self.key_at(count - 1);
        last < high && is_rising(last + 1, high, pairs)
    }

    /// The node gains these pairs behind its own, and this high fence.
    pub fn append(&mut self, pairs: &[u64], high: u64)
        requires room { 2 * length self.old.node.pairs + length pairs.now ≤ 120 }
        requires whole { length pairs.now % 2 ≡ 0 }
        requires ordered { IsOrdered self.old.node.low (self.old.node.pairs ++ pairs_of pairs.now) high }
        ensures { self.new ≡ extended self.old (pairs_of pairs.now) high }
    {
        let count = (self.words[3] % 256) as usize;
        end_with(&mut self.words, 6 + 2 * count, pairs);
        self.words[3] += pairs.len() as u64 / 2;
        self.words[5] = high;
    }

    /// The node loses its pairs from the separator on, which becomes its high fence.
    pub fn cut_from(&mut self, separator: u64)
        ensures { self.new ≡ left_half self.old separator }
    {
        let kept = self.place(separator);
        self.keep_first(kept, separator);
    }

    /// The node keeps its first pairs, and has this high fence.
    pub(crate) fn keep_first(&mut self, kept: usize, high: u64)
        requires within { kept ≤ length self.old.node.pairs }
        requires ordered { IsOrdered self.old.node.low (take kept self.old.node.pairs) high }
        ensures { self.new ≡ shortened self.old kept high }
    {
        let count = self.words[3] % 256;
        end_with(&mut self.words, 6 + 2 * kept, &[]);
        self.words[3] = self.words[3] - count + kept as u64;
        self.words[5] = high;
    }
}

/// Behind the first words stand these, and behind them zeros.
pub(crate) fn end_with(words: &mut [u64; 126], at: usize, pairs: &[u64])
    requires { at + length pairs.now ≤ 126 }
    ensures { words.new ≡ ended at words.old pairs.now }
{
    copy_words(words, at, pairs);
    clear_words(words, at + pairs.len());
}

/// Writes these words from a place on.
fn copy_words(words: &mut [u64; 126], at: usize, pairs: &[u64])
    requires { at + length pairs.now ≤ 126 }
    ensures { words.new ≡ take at words.old ++ (pairs.now ++ drop (at + length pairs.now) words.old) }
{
    words[at..at + pairs.len()].copy_from_slice(pairs);
}

/// Writes zeros from a place on.
fn clear_words(words: &mut [u64; 126], from: usize)
    requires { from ≤ 126 }
    ensures { words.new ≡ take from words.old ++ replicate (126 - from) 0 }
{
    words[from..].fill(0);
}
