// The index: entries with rising keys.
ghost use Rattle.std.specs.Prelude.{◌≡◌, IfOk};
ghost use Rattle.page_model.specs.Pairs as pairs;
ghost use Rattle.mem_journal.specs.Entries.{pairs_of};

use std::alloc::{AllocError, Global};

/// A key and its word.
#[derive(Clone, Copy)]
pub struct Entry {
    pub key: u64,
    pub word: u64,
}

/// The word of the key.
pub(crate) fn find(entries: &[Entry], key: u64) -> Option<u64>
    ensures { result ≡ pairs.find key (pairs_of entries.now) }
{
    for entry in entries {
        if entry.key == key {
            return Some(entry.word);
        }
    }
    None
}

/// The entries with the word of the key, which is put in where there is none.
pub(crate) fn put(
    alloc: Global,
    entries: &[Entry],
    key: u64,
    word: u64,
) -> Result<Vec<Entry>, AllocError>
    ensures { IfOk result (λ v. pairs_of v.items ≡ pairs.put key word (pairs_of entries.now)) }
{
    let mut put = Vec::new(alloc);
    let mut done = false;
    for entry in entries {
        if done || entry.key < key {
            put.push(*entry)?;
        } else {
            put.push(Entry { key, word })?;
            if entry.key != key {
                put.push(*entry)?;
            }
            done = true;
        }
    }
    if !done {
        put.push(Entry { key, word })?;
    }
    Ok(put)
}
