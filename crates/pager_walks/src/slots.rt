// Random keys of the tree.
ghost use Rattle.std.specs.Prelude.{◌<◌, ◌^◌};

use quiet_disk::trees::{INNER, LEAVES, SLOTS, key_of};
use rand_core::utils::NextWord;
use rand_pcg::Pcg32;

/// A slot of a leaf, counted from the first leaf.
#[derive(Clone, Copy, Debug)]
pub struct Slot {
    pub leaf: u32,
    pub slot: usize,
}

/// In so many leaves no key is deleted.
const KEPT: u32 = 300;

/// A number below a limit.
pub fn choose(random: &mut Pcg32, limit: u32) -> u32
    requires { 0 < limit }
    ensures { result < limit }
{
    random.next_word() % limit
}

impl Slot {
    /// Each second one is of one of a few leaves.
    pub fn any(random: &mut Pcg32) -> Slot {
        let leaves = if choose(random, 2) == 0 {
            24
        } else {
            INNER * LEAVES
        };
        let leaf = choose(random, leaves);
        let slot = choose(random, SLOTS as u32) as usize;
        // No slot that has no entry at first: so a leaf in which keys are deleted is never full.
        let has_entry = leaf < KEPT || slot % 4 != 3;
        Slot {
            leaf: leaf * 13 % 360,
            slot: if has_entry {
                slot
            } else {
                slot.saturating_sub(1)
            },
        }
    }

    /// One of a leaf in which keys are deleted.
    pub fn apart(random: &mut Pcg32) -> Slot {
        Slot {
            leaf: (KEPT + choose(random, INNER * LEAVES - KEPT)) * 13 % 360,
            slot: choose(random, SLOTS as u32) as usize,
        }
    }

    pub fn key(&self) -> u64
        ensures { result < 2 ^ 32 }
    {
        key_of(self.leaf.min(359), self.slot.min(77))
    }

    /// Its place among all slots.
    pub fn at(&self) -> usize {
        self.leaf.min(359) as usize * SLOTS + self.slot.min(77)
    }
}
