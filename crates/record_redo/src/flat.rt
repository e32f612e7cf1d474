// The pairs of a record as words, key and word in turn.
ghost use Rattle.std.specs.Prelude.{◌≡◌, ◌*◌, ◌≤◌, length, take, map};
ghost use Rattle.disk_image.specs.btree_node.Words.{flat};
ghost use Rattle.disk_image.specs.log_record.Spelling.{IsCounted};
ghost use Rattle.disk_image.specs.log_record.Model.{model_pair};
ghost use Rattle.record_redo.specs.Inside.{record_in, AreWordsOf};

use disk_image::{Body, Pair, Pairs};

/// How many words the pairs of a record take at most.
pub(crate) const MOST_WORDS: usize = 120;

/// Writes the pairs of a record as words. The answer is how many words that are.
pub(crate) fn spell_pairs(body: &Body, words: &mut [u64; MOST_WORDS]) -> usize
    requires { IsCounted body.now }
    ensures bound { result ≤ 120 }
    ensures spelled { AreWordsOf (record_in body.now).pairs (take result words.new) }
{
    let pairs = pairs_of(body);
    put_pairs(pairs, words);
    2 * pairs.len()
}

/// The pairs of a record; those that have none have an empty list.
fn pairs_of(body: &Body) -> &[Pair]
    requires { IsCounted body.now }
    ensures bound { length result.now ≤ 60 }
    ensures answer { map model_pair result.now ≡ (record_in body.now).pairs }
{
    match body {
        Body::Split { pairs, .. }
        | Body::Lift { pairs, .. }
        | Body::Join { pairs, .. }
        | Body::DropRoot { pairs, .. } => counted(pairs),
        _ => &[],
    }
}

fn counted(pairs: &Pairs) -> &[Pair]
    requires { pairs.now.count ≤ 60 }
    ensures bound { length result.now ≤ 60 }
    ensures answer { result.now ≡ take pairs.now.count pairs.now.pairs }
{
    &pairs.pairs[..pairs.count as usize]
}

fn put_pairs(pairs: &[Pair], words: &mut [u64; MOST_WORDS])
    requires { length pairs.now ≤ 60 }
    ensures { take (2 * length pairs.now) words.new ≡ flat (map model_pair pairs.now) }
{
    for i in 0..pairs.len() {
        words[2 * i] = pairs[i].key;
        words[2 * i + 1] = pairs[i].word;
    }
}
