//! Tests of what a pager keeps in memory, by public functions alone: the cooling queue, the set of free pages, what is kept
//! of cold pages, and a new pager.
#![tactic(auto)]

#[cfg(test)]
mod colds;
#[cfg(test)]
mod pagers;
#[cfg(test)]
mod queues;
#[cfg(test)]
mod sets;
