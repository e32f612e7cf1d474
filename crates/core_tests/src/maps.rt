// Maps, as pairs with rising keys, and the map of leaves.
use crate::openings::DEAD;
use plain_core::Core;
use plain_images::Pair;
use plain_images::pairs::{put, without};
use std::alloc::{AllocError, Global};

/// What a word says: a value, or none.
pub fn value_of(word: u64) -> Option<u64> {
    if word < DEAD { Some(word) } else { None }
}

/// The map in which a key has what a word says.
pub fn written(alloc: Global, map: &[Pair], key: u64, word: u64) -> Result<Vec<Pair>, AllocError> {
    if word < DEAD {
        put(alloc, map, key, word)
    } else {
        without(alloc, map, key)
    }
}

/// The map of the core's leaves.
pub fn map_of_leaves(alloc: Global, core: &Core) -> Result<Vec<Pair>, AllocError> {
    let mut map = Vec::new(alloc);
    for place in 0..core.settings.pages {
        let node = &core.pages.get(place).node;
        if node.live && node.level == 0 {
            for pair in &node.pairs {
                map = written(alloc, &map, pair.key, pair.word)?;
            }
        }
    }
    Ok(map)
}

/// The pairs are those that are said.
pub fn are_pairs(pairs: &[Pair], said: &[(u64, u64)]) -> bool {
    for (pair, (key, word)) in pairs.iter().zip(said) {
        if pair.key != *key || pair.word != *word {
            return false;
        }
    }
    pairs.len() == said.len()
}
