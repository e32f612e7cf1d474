// The pairs, the keys and the pages of a record.
ghost use Rattle.std.specs.Prelude.{◌≡◌, ◌≤◌, ◌<◌, ◌^◌, ◌*◌, ◌%◌, length, map, take, drop};
ghost use Rattle.std.specs.List.{All};
ghost use Rattle.disk_image.specs.btree_node.Words.{pairs_of, pairs_in};
ghost use Rattle.disk_image.specs.log_record.Model.{model_pair, model_pairs, model_keys};
ghost use Rattle.disk_image.specs.log_record.Spelling.{PairFits, PairsFit, KeyFits, KeysFit, RefFits};

use disk_image::{Keys, Node, PageRef, Pair, Pairs};

// Pairs of their words, key and word in turn.
pub(crate) fn pairs_of(words: &[u64]) -> Pairs
    requires few { length words.now ≤ 120 }
    requires whole { length words.now % 2 ≡ 0 }
    ensures pairs { model_pairs result ≡ pairs_of words.now }
    ensures fits { PairsFit result }
{
    let count = words.len() / 2;
    let mut pairs = Pairs::NONE;
    fill(words, count, &mut pairs.pairs);
    pairs.count = count as u8;
    pairs
}

// Sets the first pairs.
fn fill(words: &[u64], count: usize, pairs: &mut [Pair; 60])
    requires few { count ≤ 60 }
    requires whole { 2 * count ≤ length words.now }
    ensures first { map model_pair (take count pairs.new) ≡ pairs_in count words.now }
    ensures fits { All PairFits (take count pairs.new) }
    ensures rest { drop count pairs.new ≡ drop count pairs.old }
    ensures size { length pairs.new ≡ 60 }
{
    for i in 0..count {
        let key = words[2 * i];
        let word = words[2 * i + 1];
        pairs[i] = Pair { key, word };
    }
}

// Keys of a leaf.
pub(crate) fn keys_of(list: &[u64]) -> Keys
    requires few { length list.now ≤ 60 }
    ensures keys { model_keys result ≡ list.now }
    ensures fits { KeysFit result }
{
    let mut keys = Keys::NONE;
    fill_keys(list, &mut keys.keys);
    keys.count = list.len() as u8;
    keys
}

// Sets the first keys.
fn fill_keys(list: &[u64], keys: &mut [u64; 60])
    requires few { length list.now ≤ 60 }
    ensures first { take (length list.now) keys.new ≡ list.now }
    ensures fits { All KeyFits (take (length list.now) keys.new) }
    ensures rest { drop (length list.now) keys.new ≡ drop (length list.now) keys.old }
    ensures size { length keys.new ≡ 60 }
{
    for i in 0..list.len() {
        let key = list[i];
        keys[i] = key;
    }
}

// The page with its number before.
pub(crate) fn reference(node: &Node) -> PageRef
    requires { node.now.number < 2 ^ 32 }
    ensures page { result.page ≡ node.now.number }
    ensures prev { result.prev ≡ node.now.gsn }
    ensures fits { RefFits result }
{
    PageRef {
        page: node.number() as u32,
        prev: node.gsn(),
    }
}
