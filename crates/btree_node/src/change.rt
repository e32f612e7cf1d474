// Entries are put in, written over and taken out in place.
ghost use Rattle.std.specs.Prelude.{◌≡◌, ◌+◌, ◌*◌, ◌^◌, ◌++◌, ◌<◌, ◌≤◌, length, slice_set, take, drop, not, true, None, IsSome};
ghost use Rattle.std.specs.List.Sorted.{IsNonDecreasing};
ghost use Rattle.page_model.specs.Pairs.{find, put, keep, without, is_in};
ghost use Rattle.page_model.specs.Needs.{key_at};
ghost use Rattle.page_model.specs.Page.{with_pairs};
ghost use Rattle.btree_node.specs.Words.{Fits, flat, pairs_in};
ghost use Rattle.btree_node.specs.Inside.{spread, stays, IsGap};

use super::Node;
use crate::fill::end_with;

/// What a put did: nothing where the node is full.
#[derive(Clone, Copy, Debug, PartialEq, Eq)]
pub enum Put {
    Done,
    Full,
}

impl Node {
    /// A key gets a word, and an entry where it has none. Full exactly where sixty other keys have the entries.
    pub fn put(&mut self, key: u64, word: u64) -> Put
        requires above { self.old.node.low ≤ key }
        requires below { key < self.old.node.high }
        ensures after { result ≡ Put.Done → self.new ≡ with_pairs self.old (put key word self.old.node.pairs) }
        ensures same { result ≡ Put.Full → self.new ≡ self.old }
        ensures kept { Fits self.new }

        ensures cause_full { result ≡ Put.Full → (length self.old.node.pairs ≡ 60) × (find key self.old.node.pairs ≡ None) }
        ensures room { length self.old.node.pairs < 60 → result ≡ Put.Done }
        ensures over { IsSome (find key self.old.node.pairs) → result ≡ Put.Done }
    {
        match self.search(key) {
            Ok(at) => {
                self.set_word_at(at, word);
                Put::Done
            }
            Err(at) => {
                if self.count() == 60 {
                    return Put::Full;
                }
                self.insert(at, key, word);
                Put::Done
            }
        }
    }

    /// The word of a key that has an entry becomes the tombstone.
    pub fn tombstone(&mut self, key: u64)
        requires { IsSome (find key self.old.node.pairs) }
        ensures after { self.new ≡ with_pairs self.old (put key (2 ^ 63) self.old.node.pairs) }
        ensures kept { Fits self.new }
    {
        if let Ok(at) = self.search(key) {
            self.set_word_at(at, 1 << 63);
        }
    }

    /// The word of pair `i` is written over: a value word in a leaf, a child's word in an inner node.
    pub fn set_word_at(&mut self, i: usize, word: u64)
        requires { i < length self.old.node.pairs }
        ensures after { self.new ≡ with_pairs self.old (slice_set self.old.node.pairs i (record { key = key_at i self.old.node.pairs; word = word })) }
        ensures kept { Fits self.new }
    {
        let words = &mut self.words;
        words[7 + 2 * i] = word;
    }

    /// The entries of these keys go. The keys may come in any order, and one without an entry changes nothing.
    pub fn purge(&mut self, keys: &[u64])
        ensures after { self.new ≡ with_pairs self.old (keep (λ k. not (is_in k keys.now)) self.old.node.pairs) }
        ensures kept { Fits self.new }
    {
        let count = (self.words[3] % 256) as usize;
        let kept = close_gaps(&mut self.words, count, keys);
        end_with(&mut self.words, 6 + 2 * kept, &[]);
        self.words[3] = self.words[3] - count as u64 + kept as u64;
    }

    /// The pair of this key goes, if there is one.
    pub fn remove(&mut self, key: u64)
        ensures after { self.new ≡ with_pairs self.old (without key self.old.node.pairs) }
        ensures kept { Fits self.new }
    {
        self.purge(&[key]);
    }

    /// An entry comes to stand at `at`.
    fn insert(&mut self, at: usize, key: u64, word: u64)
        requires room { length self.old.node.pairs < 60 }
        requires gap { IsGap key self.old.node.pairs at }
        requires above { self.old.node.low ≤ key }
        requires below { key < self.old.node.high }
        ensures after { self.new ≡ with_pairs self.old (put key word self.old.node.pairs) }
        ensures kept { Fits self.new }
    {
        let count = (self.words[3] % 256) as usize;
        open_gap(&mut self.words, 6 + 2 * at, 6 + 2 * count);
        self.words[6 + 2 * at] = key;
        self.words[7 + 2 * at] = word;
        self.words[3] += 1;
    }
}

/// Moves the words from `from` up to `end` by two places.
fn open_gap(words: &mut [u64; 126], from: usize, end: usize)
    requires order { from ≤ end }
    requires room { end + 2 ≤ 126 }
    ensures { words.new ≡ spread words.old from end }
{
    let mut i = end;
    while from < i {
        i -= 1;
        words[i + 2] = words[i];
    }
}

/// Of the first `count` pairs those without one of these keys move together. The answer is how many they are.
fn close_gaps(words: &mut [u64; 126], count: usize, keys: &[u64]) -> usize
    requires room { count ≤ 60 }
    ensures within { result ≤ count }
    ensures long { length (keep (stays keys.now) (pairs_in count (drop 6 words.old))) ≡ result }
    ensures closed { take (6 + 2 * result) words.new ≡ take 6 words.old ++ flat (keep (stays keys.now) (pairs_in count (drop 6 words.old))) }
{
    let rise = are_rising(keys);
    let mut kept = 0;
    for i in 0..count {
        let key = words[6 + 2 * i];
        let word = words[7 + 2 * i];
        if !has(keys, rise, key) {
            words[6 + 2 * kept] = key;
            words[7 + 2 * kept] = word;
            kept += 1;
        }
    }
    kept
}

fn are_rising(keys: &[u64]) -> bool
    ensures { result ≡ true → IsNonDecreasing keys.now }
{
    keys.is_sorted()
}

/// Whether the key is one of these. Keys that rise are searched by halves.
fn has(keys: &[u64], rise: bool, key: u64) -> bool
    requires { rise ≡ true → IsNonDecreasing keys.now }
    ensures { result ≡ is_in key keys.now }
{
    if rise {
        keys.binary_search(&key).is_ok()
    } else {
        keys.contains(&key)
    }
}
