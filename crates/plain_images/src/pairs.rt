// Lists of pairs with rising keys, as both plain programs have them.
ghost use Rattle.std.specs.Prelude.{◌≡◌, ◌++◌, ◌==◌, ltb, not, IfOk};
ghost use Rattle.page_model.specs.Pairs as page_pairs;
ghost use Rattle.plain_images.specs.Pages.{pairs_of};

use crate::pages::Pair;
use std::alloc::{AllocError, Global};

/// The word of the key.
pub fn find(pairs: &[Pair], key: u64) -> Option<u64>
    ensures { result ≡ page_pairs.find key (pairs_of pairs.now) }
{
    for pair in pairs {
        if pair.key == key {
            return Some(pair.word);
        }
    }
    None
}

/// The pair with the key gets the word, and is put in where there is none.
///
/// # Errors
/// Where memory runs out.
pub fn put(alloc: Global, pairs: &[Pair], key: u64, word: u64) -> Result<Vec<Pair>, AllocError>
    ensures { IfOk result (λ v. pairs_of v.items ≡ page_pairs.put key word (pairs_of pairs.now)) }
{
    let mut put = Vec::new(alloc);
    let mut done = false;
    for pair in pairs {
        if done || pair.key < key {
            put.push(*pair)?;
        } else {
            put.push(Pair { key, word })?;
            if pair.key != key {
                put.push(*pair)?;
            }
            done = true;
        }
    }
    if !done {
        put.push(Pair { key, word })?;
    }
    Ok(put)
}

/// The pairs with keys below the separator.
///
/// # Errors
/// Where memory runs out.
pub fn below(alloc: Global, pairs: &[Pair], sep: u64) -> Result<Vec<Pair>, AllocError>
    ensures { IfOk result (λ v. pairs_of v.items ≡ page_pairs.below sep (pairs_of pairs.now)) }
{
    let mut below = Vec::new(alloc);
    for pair in pairs {
        if pair.key < sep {
            below.push(*pair)?;
        }
    }
    Ok(below)
}

/// The pairs with other keys than the separator.
///
/// # Errors
/// Where memory runs out.
pub fn without(alloc: Global, pairs: &[Pair], sep: u64) -> Result<Vec<Pair>, AllocError>
    ensures { IfOk result (λ v. pairs_of v.items ≡ page_pairs.without sep (pairs_of pairs.now)) }
{
    let mut without = Vec::new(alloc);
    for pair in pairs {
        if pair.key != sep {
            without.push(*pair)?;
        }
    }
    Ok(without)
}

/// The pairs whose keys are not among these.
///
/// # Errors
/// Where memory runs out.
pub fn others(alloc: Global, pairs: &[Pair], keys: &[u64]) -> Result<Vec<Pair>, AllocError>
    ensures { IfOk result (λ v. pairs_of v.items ≡ page_pairs.keep (λ k. not (page_pairs.is_in k keys.now)) (pairs_of pairs.now)) }
{
    let mut others = Vec::new(alloc);
    for pair in pairs {
        if !is_in(pair.key, keys) {
            others.push(*pair)?;
        }
    }
    Ok(others)
}

fn is_in(key: u64, keys: &[u64]) -> bool
    ensures { result ≡ page_pairs.is_in key keys.now }
{
    for other in keys {
        if *other == key {
            return true;
        }
    }
    false
}

/// The pairs of both lists.
///
/// # Errors
/// Where memory runs out.
pub fn joined(alloc: Global, left: &[Pair], right: &[Pair]) -> Result<Vec<Pair>, AllocError>
    ensures { IfOk result (λ v. pairs_of v.items ≡ pairs_of left.now ++ pairs_of right.now) }
{
    let mut joined = Vec::from_slice(alloc, left)?;
    joined.extend_from_slice(right)?;
    Ok(joined)
}
