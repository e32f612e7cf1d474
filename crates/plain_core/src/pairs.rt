// Lists of pairs, most with rising keys: what plain_images does not give of them.
ghost use Rattle.std.specs.Prelude.{◌≡◌, leb, map, IfOk};
ghost use Rattle.map_model.specs.Lists.{all};
ghost use Rattle.page_model.specs.Pairs as paired;
ghost use Rattle.page_model.specs.Check as check;
ghost use Rattle.page_model.specs.Needs as page_needs;
ghost use Rattle.core_state.specs.Needs as needs;
ghost use Rattle.plain_images.specs.Pages.{pair_of};

use plain_images::Pair;
use std::alloc::{AllocError, Global};

// The key of the pair at a place, 0 where there is none.
pub(crate) fn key_at(place: u64, pairs: &[Pair]) -> u64
    ensures { result ≡ page_needs.key_at place (map pair_of pairs.now) }
{
    let mut left = place;
    for pair in pairs {
        if left == 0 {
            return pair.key;
        }
        left -= 1;
    }
    0
}

// The pairs with keys from the separator on.
pub(crate) fn onward(alloc: Global, pairs: &[Pair], separator: u64) -> Result<Vec<Pair>, AllocError>
    ensures { IfOk result (λ v. map pair_of v.items ≡ paired.onward separator (map pair_of pairs.now)) }
{
    let mut onward = Vec::new(alloc);
    for pair in pairs {
        if separator <= pair.key {
            onward.push(*pair)?;
        }
    }
    Ok(onward)
}

// The keys rise from `low` on, and are below `high`.
pub(crate) fn is_rising(low: u64, pairs: &[Pair], high: u64) -> bool
    ensures { result ≡ check.is_rising low (map pair_of pairs.now) high }
{
    let mut from = u128::from(low);
    for pair in pairs {
        if u128::from(pair.key) < from {
            return false;
        }
        from = u128::from(pair.key) + 1;
    }
    from <= u128::from(high)
}

// No word is above a tombstone's.
pub(crate) fn are_words(dead: u64, pairs: &[Pair]) -> bool
    ensures { result ≡ all (λ x. leb x.word dead) (map pair_of pairs.now) }
{
    for pair in pairs {
        if dead < pair.word {
            return false;
        }
    }
    true
}

pub(crate) fn are_same(pairs: &[Pair], others: &[Pair]) -> bool
    ensures { result ≡ needs.are_same (map pair_of pairs.now) (map pair_of others.now) }
{
    pairs == others
}
