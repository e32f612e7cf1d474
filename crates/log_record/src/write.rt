// A record as bytes.
ghost use Rattle.std.specs.Prelude.{◌≡◌, ◌≤◌, ◌+◌, ◌*◌, ◌++◌, ◌∷◌, ℕ, List, length};
ghost use Rattle.lean_bytes.specs.Numbers.{number_bytes};
ghost use Rattle.log_record.specs.Spelling.{Holds, body_text, pairs_text, record_text, size_of, IsCounted};
ghost use Rattle.log_record.specs.Inside.{root_change_text, siblings_text};

use crate::format::{
    CHANGE_SIZE, END_SIZE, HEAD_SIZE, JOIN_SIZE, PURGE_SIZE, ROOT_CHANGE_SIZE, SPLIT_SIZE,
};
use crate::items::{keys_size, pairs_size, put_keys, put_pairs};
use crate::kinds::kind_of;
use crate::parts::{
    KeyChange, RootChange, Siblings, put_key_change, put_ref, put_root_change, put_siblings,
};
use crate::pieces::{put_byte, put_word};
use crate::record::{Body, Pairs, Record};

/// How many bytes a record takes.
pub fn record_size(entry: &Record) -> usize
    requires { IsCounted entry.now.body }
    ensures size { result ≡ size_of entry.now.body }
    ensures spelled { result ≡ length (record_text entry.now) }
{
    match &entry.body {
        Body::Change { .. } => CHANGE_SIZE,
        Body::PutBack { .. } => CHANGE_SIZE,
        Body::Split { pairs, .. } => SPLIT_SIZE + pairs_size(pairs),
        Body::Lift { pairs, .. } => ROOT_CHANGE_SIZE + pairs_size(pairs),
        Body::Join { pairs, .. } => JOIN_SIZE + pairs_size(pairs),
        Body::DropRoot { pairs, .. } => ROOT_CHANGE_SIZE + pairs_size(pairs),
        Body::Purge { keys, .. } => PURGE_SIZE + keys_size(keys),
        Body::Commit { .. } => END_SIZE,
        Body::Abort { .. } => END_SIZE,
    }
}

/// Writes a record to the beginning of a buffer. The answer is how many bytes that are.
pub fn record_bytes(entry: &Record, into: &mut [u8]) -> usize
    requires counted { IsCounted entry.now.body }
    requires room { size_of entry.now.body ≤ length into.old }
    ensures size { result ≡ size_of entry.now.body }
    ensures written { Holds (record_text entry.now) into.old into.new result }
{
    put_head(into, kind_of(&entry.body), entry.txn, entry.gsn);
    put_body(into, &entry.body)
}

fn put_head(into: &mut [u8], kind: u8, txn: u64, gsn: u64) -> usize
    requires { 17 ≤ length into.old }
    ensures end { result ≡ 17 }
    ensures written { Holds (kind ∷ (number_bytes 8 txn ++ number_bytes 8 gsn)) into.old into.new result }
{
    let at = put_byte(into, 0, kind);
    let at = put_word(into, at, txn);
    put_word(into, at, gsn)
}

// Puts a body behind the head.
fn put_body(into: &mut [u8], body: &Body) -> usize
    requires counted { IsCounted body.now }
    requires room { size_of body.now ≤ length into.old }
    ensures end { result ≡ size_of body.now }
    ensures written { (prefix first : List ℕ) → Holds prefix first into.old 17 → Holds (prefix ++ body_text body.now) first into.new result }
{
    match body {
        Body::Change {
            leaf,
            key,
            before,
            after,
        }
        | Body::PutBack {
            leaf,
            key,
            before,
            after,
        } => {
            let change = KeyChange {
                leaf: *leaf,
                key: *key,
                before: *before,
                after: *after,
            };
            put_key_change(into, HEAD_SIZE, &change)
        }
        Body::Split {
            left,
            right,
            parent,
            separator,
            high,
            level,
            pairs,
        } => {
            let siblings = Siblings {
                left: *left,
                right: *right,
                parent: *parent,
                separator: *separator,
                high: *high,
            };
            put_split(into, &siblings, *level, pairs)
        }
        Body::Lift {
            root_prev,
            page,
            level,
            pairs,
        } => {
            let change = RootChange {
                root_prev: *root_prev,
                page: *page,
                level: *level,
            };
            put_lift(into, &change, pairs)
        }
        Body::Join {
            left,
            right,
            parent,
            separator,
            high,
            pairs,
        } => {
            let siblings = Siblings {
                left: *left,
                right: *right,
                parent: *parent,
                separator: *separator,
                high: *high,
            };
            put_join(into, &siblings, pairs)
        }
        Body::DropRoot {
            root_prev,
            child,
            level,
            pairs,
        } => {
            let change = RootChange {
                root_prev: *root_prev,
                page: *child,
                level: *level,
            };
            put_lift(into, &change, pairs)
        }
        Body::Purge { leaf, keys } => {
            let at = put_ref(into, HEAD_SIZE, leaf);
            put_keys(into, at, keys)
        }
        Body::Commit { need } | Body::Abort { need } => put_word(into, HEAD_SIZE, *need),
    }
}

fn put_split(into: &mut [u8], siblings: &Siblings, level: u8, pairs: &Pairs) -> usize
    requires most { pairs.now.count ≤ 60 }
    requires room { 71 + 16 * pairs.now.count ≤ length into.old }
    ensures end { result ≡ 71 + 16 * pairs.now.count }
    ensures written { (prefix first : List ℕ) → Holds prefix first into.old 17 → Holds (prefix ++ siblings_text siblings.now (level ∷ pairs_text pairs.now)) first into.new result }
{
    let at = put_siblings(into, HEAD_SIZE, siblings);
    let at = put_byte(into, at, level);
    put_pairs(into, at, pairs)
}

fn put_join(into: &mut [u8], siblings: &Siblings, pairs: &Pairs) -> usize
    requires most { pairs.now.count ≤ 60 }
    requires room { 70 + 16 * pairs.now.count ≤ length into.old }
    ensures end { result ≡ 70 + 16 * pairs.now.count }
    ensures written { (prefix first : List ℕ) → Holds prefix first into.old 17 → Holds (prefix ++ siblings_text siblings.now (pairs_text pairs.now)) first into.new result }
{
    let at = put_siblings(into, HEAD_SIZE, siblings);
    put_pairs(into, at, pairs)
}

fn put_lift(into: &mut [u8], change: &RootChange, pairs: &Pairs) -> usize
    requires most { pairs.now.count ≤ 60 }
    requires room { 39 + 16 * pairs.now.count ≤ length into.old }
    ensures end { result ≡ 39 + 16 * pairs.now.count }
    ensures written { (prefix first : List ℕ) → Holds prefix first into.old 17 → Holds (prefix ++ root_change_text change.now (pairs_text pairs.now)) first into.new result }
{
    let at = put_root_change(into, HEAD_SIZE, change);
    put_pairs(into, at, pairs)
}
