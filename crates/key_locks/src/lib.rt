//! Locks of keys that nobody waits for: words of a lock row, which many keys share.
#![tactic(auto)]

ghost use Rattle.key_locks.specs.Soundness.{EverySound};

mod events;
mod held;
pub mod latches;
pub mod locking;
pub mod mode;
pub mod seeing;
mod words;

/// Rows are sound where their holders and readers are workers at each moment: the log of a stamp is that of a holder.
pub fn every_sound()
    ensures { EverySound }
{}
