// The parts of records that several kinds share.
ghost use Rattle.std.specs.Prelude.{◌≡◌, ◌≤◌, ◌+◌, ◌++◌, ◌∷◌, [], ℕ, List, length};
ghost use Rattle.lean_bytes.specs.Numbers.{number_bytes};
ghost use Rattle.log_record.specs.Spelling.{Holds, RefFits, ref_text};
ghost use Rattle.log_record.specs.Inside.{head_text, HeadFits, key_change_text, KeyChangeFits, siblings_text, SiblingsFit, root_change_text, RootChangeFits};

use crate::pieces::{put_byte, put_short, put_word, split_byte, split_short, split_word};
use crate::record::PageRef;

/// What stands in front of a body.
#[derive(Clone, Copy)]
pub(crate) struct Head {
    pub kind: u8,
    pub txn: u64,
    pub gsn: u64,
}

/// What a change or a put-back says.
#[derive(Clone, Copy)]
pub(crate) struct KeyChange {
    pub leaf: PageRef,
    pub key: u64,
    pub before: u64,
    pub after: u64,
}

/// The pages and fences of a split or a join.
#[derive(Clone, Copy)]
pub(crate) struct Siblings {
    pub left: PageRef,
    pub right: PageRef,
    pub parent: PageRef,
    pub separator: u64,
    pub high: u64,
}

/// The pages and the level of a lift or a drop.
#[derive(Clone, Copy)]
pub(crate) struct RootChange {
    pub root_prev: u64,
    pub page: PageRef,
    pub level: u8,
}

/// Puts a page with its number before.
pub(crate) fn put_ref(into: &mut [u8], at: usize, page: &PageRef) -> usize
    requires room { at + 12 ≤ length into.old }
    ensures end { result ≡ at + 12 }
    ensures written { (prefix first : List ℕ) → Holds prefix first into.old at → Holds (prefix ++ ref_text page.now) first into.new result }
{
    let at = put_short(into, at, page.page);
    put_word(into, at, page.prev)
}

pub(crate) fn put_key_change(into: &mut [u8], at: usize, change: &KeyChange) -> usize
    requires room { at + 36 ≤ length into.old }
    ensures end { result ≡ at + 36 }
    ensures written { (prefix first : List ℕ) → Holds prefix first into.old at → Holds (prefix ++ key_change_text change.now) first into.new result }
{
    let at = put_ref(into, at, &change.leaf);
    let at = put_word(into, at, change.key);
    let at = put_word(into, at, change.before);
    put_word(into, at, change.after)
}

pub(crate) fn put_siblings(into: &mut [u8], at: usize, siblings: &Siblings) -> usize
    requires room { at + 52 ≤ length into.old }
    ensures end { result ≡ at + 52 }
    ensures written { (prefix first : List ℕ) → Holds prefix first into.old at → Holds (prefix ++ siblings_text siblings.now []) first into.new result }
{
    let at = put_ref(into, at, &siblings.left);
    let at = put_ref(into, at, &siblings.right);
    let at = put_ref(into, at, &siblings.parent);
    let at = put_word(into, at, siblings.separator);
    put_word(into, at, siblings.high)
}

pub(crate) fn put_root_change(into: &mut [u8], at: usize, change: &RootChange) -> usize
    requires room { at + 21 ≤ length into.old }
    ensures end { result ≡ at + 21 }
    ensures written { (prefix first : List ℕ) → Holds prefix first into.old at → Holds (prefix ++ root_change_text change.now []) first into.new result }
{
    let at = put_word(into, at, change.root_prev);
    let at = put_ref(into, at, &change.page);
    put_byte(into, at, change.level)
}

/// The kind, transaction and number in the first bytes, and the bytes behind them.
pub(crate) fn split_head(bytes: &[u8]) -> (Head, &[u8])
    requires { 17 ≤ length bytes.now }
    ensures prefix { bytes.now ≡ head_text result.0 result.1.now }
    ensures fits { HeadFits result.0 }
{
    let (kind, rest) = split_byte(bytes);
    let (txn, rest) = split_word(rest);
    let (gsn, rest) = split_word(rest);
    (Head { kind, txn, gsn }, rest)
}

/// The page in the first bytes with its number before, and the bytes behind them.
pub(crate) fn split_ref(bytes: &[u8]) -> (PageRef, &[u8])
    requires { 12 ≤ length bytes.now }
    ensures prefix { bytes.now ≡ ref_text result.0 ++ result.1.now }
    ensures rest { length result.1.now + 12 ≡ length bytes.now }
    ensures fits { RefFits result.0 }
{
    let (page, rest) = split_short(bytes);
    let (prev, rest) = split_word(rest);
    (PageRef { page, prev }, rest)
}

pub(crate) fn split_key_change(bytes: &[u8]) -> (KeyChange, &[u8])
    requires { 36 ≤ length bytes.now }
    ensures prefix { bytes.now ≡ key_change_text result.0 ++ result.1.now }
    ensures rest { length result.1.now + 36 ≡ length bytes.now }
    ensures fits { KeyChangeFits result.0 }
{
    let (leaf, rest) = split_ref(bytes);
    let (key, rest) = split_word(rest);
    let (before, rest) = split_word(rest);
    let (after, rest) = split_word(rest);
    (
        KeyChange {
            leaf,
            key,
            before,
            after,
        },
        rest,
    )
}

pub(crate) fn split_siblings(bytes: &[u8]) -> (Siblings, &[u8])
    requires { 52 ≤ length bytes.now }
    ensures prefix { bytes.now ≡ siblings_text result.0 result.1.now }
    ensures rest { length result.1.now + 52 ≡ length bytes.now }
    ensures fits { SiblingsFit result.0 }
{
    let (left, rest) = split_ref(bytes);
    let (right, rest) = split_ref(rest);
    let (parent, rest) = split_ref(rest);
    let (separator, rest) = split_word(rest);
    let (high, rest) = split_word(rest);
    (
        Siblings {
            left,
            right,
            parent,
            separator,
            high,
        },
        rest,
    )
}

pub(crate) fn split_root_change(bytes: &[u8]) -> (RootChange, &[u8])
    requires { 21 ≤ length bytes.now }
    ensures prefix { bytes.now ≡ root_change_text result.0 result.1.now }
    ensures rest { length result.1.now + 21 ≡ length bytes.now }
    ensures fits { RootChangeFits result.0 }
{
    let (root_prev, rest) = split_word(bytes);
    let (page, rest) = split_ref(rest);
    let (level, rest) = split_byte(rest);
    (
        RootChange {
            root_prev,
            page,
            level,
        },
        rest,
    )
}
