// The words of a page, both ways.
ghost use Rattle.std.specs.Prelude.{◌≡◌, ◌↔◌, ◌%◌, length, Some, IfSome, IfNone, IsTrue};
ghost use Rattle.page_model.specs.Page.{Page};
ghost use Rattle.btree_node.specs.Words.{pairs_of, IsOrdered, Spells, IsPage};
ghost use Rattle.btree_node.specs.Inside.{all_zero, rises};

use super::Node;

impl Node {
    /// The words that spell the page.
    pub fn words(&self) -> &[u64; 126]
        ensures answer { Spells result.now self.now }
        ensures long { length result.now ≡ 126 }
    {
        &self.words
    }

    /// The page that words spell; none exactly where they spell none.
    pub fn from_words(words: [u64; 126]) -> Option<Node>
        ensures answer { IfSome result (λ page. Spells words page) }
        ensures same { (page : Page) → Spells words page → result ≡ Some page }
        ensures cause { IfNone result ((page : Page) → Spells words page → ⊥) }
    {
        if is_page(&words) {
            Some(Node { words })
        } else {
            None
        }
    }
}

fn is_page(words: &[u64; 126]) -> bool
    ensures { IsTrue result ↔ IsPage words.now }
{
    let packed = words[3];
    let kind = packed / 16777216;
    if kind != 1 && kind != 2 {
        return false;
    }
    let count = (packed % 256) as usize;
    if count > 60 {
        return false;
    }
    if packed / 256 % 256 > 7 {
        return false;
    }
    if !is_zero(&words[6 + 2 * count..]) {
        return false;
    }
    is_rising(words[4], words[5], &words[6..6 + 2 * count])
}

fn is_zero(words: &[u64]) -> bool
    ensures { result ≡ all_zero words.now }
{
    for word in words {
        if *word != 0 {
            return false;
        }
    }
    true
}

/// Whether these pairs, as words, may stand in a node with these fences: their keys rise strictly, from `low` on and
/// below `high`. No pairs may stand in any node.
pub fn are_ordered(low: u64, high: u64, pairs: &[u64]) -> bool
    requires { length pairs.now % 2 ≡ 0 }
    ensures { IsTrue result ↔ IsOrdered low (pairs_of pairs.now) high }
{
    is_rising(low, high, pairs)
}

/// The same, as the words say it.
pub(crate) fn is_rising(low: u64, high: u64, words: &[u64]) -> bool
    ensures { result ≡ rises low high words.now }
{
    let mut next = low;
    let mut i = 0;
    while i < words.len() {
        let key = words[i];
        if key < next || key >= high {
            return false;
        }
        next = key + 1;
        i += 2;
    }
    true
}
