// Pairs and keys: a count, and so many items behind one another.
ghost use Rattle.std.specs.Prelude.{◌≡◌, ◌≤◌, ◌+◌, ◌*◌, ◌++◌, ℕ, List, IfSome, IfNone, length, replicate};
ghost use Rattle.std.specs.List.{flat_map};
ghost use Rattle.lean_bytes.specs.Numbers.{number_bytes};
ghost use Rattle.log_record.specs.Spelling.{Holds, pair_text, pairs_text, keys_text, PairFits, KeyFits, no_pair};
ghost use Rattle.log_record.specs.Inside.{PairsStand, NoPairs, KeysStand, NoKeys, Spell};

use crate::format::{KEY_SIZE, MOST, PAIR_SIZE};
use crate::pieces::{put_byte, put_word, split_byte, split_word};
use crate::record::{Keys, Pair, Pairs};

/// Puts how many pairs there are, and the pairs.
pub(crate) fn put_pairs(into: &mut [u8], at: usize, pairs: &Pairs) -> usize
    requires most { pairs.now.count ≤ 60 }
    requires room { at + 1 + 16 * pairs.now.count ≤ length into.old }
    ensures end { result ≡ at + 1 + 16 * pairs.now.count }
    ensures written { (prefix first : List ℕ) → Holds prefix first into.old at → Holds (prefix ++ pairs_text pairs.now) first into.new result }
{
    let at = put_byte(into, at, pairs.count);
    put_each_pair(into, at, &pairs.pairs[..pairs.count as usize])
}

/// Puts how many keys there are, and the keys.
pub(crate) fn put_keys(into: &mut [u8], at: usize, keys: &Keys) -> usize
    requires most { keys.now.count ≤ 60 }
    requires room { at + 1 + 8 * keys.now.count ≤ length into.old }
    ensures end { result ≡ at + 1 + 8 * keys.now.count }
    ensures written { (prefix first : List ℕ) → Holds prefix first into.old at → Holds (prefix ++ keys_text keys.now) first into.new result }
{
    let at = put_byte(into, at, keys.count);
    put_each_key(into, at, &keys.keys[..keys.count as usize])
}

/// Reads the pairs that stand first, and writes 0 behind them. The answer is how many bytes they take; None where none
/// stand there.
pub(crate) fn read_pairs(bytes: &[u8], into: &mut Pairs) -> Option<usize>
    ensures answer { IfSome result (PairsStand bytes.now into.new) }
    ensures cause { IfNone result (NoPairs bytes.now) }
{
    if bytes.is_empty() {
        return None;
    }
    let (count, rest) = split_byte(bytes);
    let many = count as usize;
    if many > MOST {
        return None;
    }
    if rest.len() < PAIR_SIZE * many {
        return None;
    }
    into.count = count;
    fill_pairs(rest, &mut into.pairs[..many]);
    clear_pairs(&mut into.pairs[many..]);
    Some(1 + PAIR_SIZE * many)
}

/// Reads the keys that stand first, and writes 0 behind them. The answer is how many bytes they take; None where none
/// stand there.
pub(crate) fn read_keys(bytes: &[u8], into: &mut Keys) -> Option<usize>
    ensures answer { IfSome result (KeysStand bytes.now into.new) }
    ensures cause { IfNone result (NoKeys bytes.now) }
{
    if bytes.is_empty() {
        return None;
    }
    let (count, rest) = split_byte(bytes);
    let number = count as usize;
    if number > MOST {
        return None;
    }
    if rest.len() < KEY_SIZE * number {
        return None;
    }
    into.count = count;
    fill_keys(rest, &mut into.keys[..number]);
    clear_keys(&mut into.keys[number..]);
    Some(1 + KEY_SIZE * number)
}

/// How many bytes the pairs take, without their count.
pub(crate) fn pairs_size(pairs: &Pairs) -> usize
    requires { pairs.now.count ≤ 60 }
    ensures size { result ≡ 16 * pairs.now.count }
    ensures spelled { length (pairs_text pairs.now) ≡ result + 1 }
{
    PAIR_SIZE * pairs.pairs[..pairs.count as usize].len()
}

/// How many bytes the keys take, without their count.
pub(crate) fn keys_size(keys: &Keys) -> usize
    requires { keys.now.count ≤ 60 }
    ensures size { result ≡ 8 * keys.now.count }
    ensures spelled { length (keys_text keys.now) ≡ result + 1 }
{
    KEY_SIZE * keys.keys[..keys.count as usize].len()
}

fn put_each_pair(into: &mut [u8], at: usize, pairs: &[Pair]) -> usize
    requires room { at + 16 * length pairs.now ≤ length into.old }
    ensures end { result ≡ at + 16 * length pairs.now }
    ensures written { (prefix first : List ℕ) → Holds prefix first into.old at → Holds (prefix ++ flat_map pair_text pairs.now) first into.new result }
{
    let mut end = at;
    for pair in pairs {
        end = put_pair(into, end, pair);
    }
    end
}

fn put_each_key(into: &mut [u8], at: usize, keys: &[u64]) -> usize
    requires room { at + 8 * length keys.now ≤ length into.old }
    ensures end { result ≡ at + 8 * length keys.now }
    ensures written { (prefix first : List ℕ) → Holds prefix first into.old at → Holds (prefix ++ flat_map (number_bytes 8) keys.now) first into.new result }
{
    let mut end = at;
    for key in keys {
        end = put_word(into, end, *key);
    }
    end
}

fn put_pair(into: &mut [u8], at: usize, pair: &Pair) -> usize
    requires room { at + 16 ≤ length into.old }
    ensures end { result ≡ at + 16 }
    ensures written { (prefix first : List ℕ) → Holds prefix first into.old at → Holds (prefix ++ pair_text pair.now) first into.new result }
{
    let at = put_word(into, at, pair.key);
    put_word(into, at, pair.word)
}

fn split_pair(bytes: &[u8]) -> (Pair, &[u8])
    requires { 16 ≤ length bytes.now }
    ensures prefix { bytes.now ≡ pair_text result.0 ++ result.1.now }
    ensures rest { length result.1.now + 16 ≡ length bytes.now }
    ensures fits { PairFits result.0 }
{
    let (key, rest) = split_word(bytes);
    let (word, rest) = split_word(rest);
    (Pair { key, word }, rest)
}

// Reads a pair into each place.
fn fill_pairs(bytes: &[u8], pairs: &mut [Pair])
    requires { 16 * length pairs.old ≤ length bytes.now }
    ensures { Spell PairFits pair_text pairs.new bytes.now }
{
    let mut rest = bytes;
    for i in 0..pairs.len() {
        let (pair, more) = split_pair(rest);
        pairs[i] = pair;
        rest = more;
    }
}

// Reads a key into each place.
fn fill_keys(bytes: &[u8], keys: &mut [u64])
    requires { 8 * length keys.old ≤ length bytes.now }
    ensures { Spell KeyFits (number_bytes 8) keys.new bytes.now }
{
    let mut rest = bytes;
    for i in 0..keys.len() {
        let (key, more) = split_word(rest);
        keys[i] = key;
        rest = more;
    }
}

fn clear_pairs(pairs: &mut [Pair])
    ensures { pairs.new ≡ replicate (length pairs.old) no_pair }
{
    for i in 0..pairs.len() {
        pairs[i] = Pair { key: 0, word: 0 };
    }
}

fn clear_keys(keys: &mut [u64])
    ensures { keys.new ≡ replicate (length keys.old) 0 }
{
    keys.fill(0);
}
