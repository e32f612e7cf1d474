//! Rows that two threads share: keys that they peek, find and lock.
#![tactic(auto)]

#[cfg(test)]
mod locking;
#[cfg(test)]
mod peeking;
