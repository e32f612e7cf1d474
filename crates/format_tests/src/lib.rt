//! Tests of what lies on the disk: numbers and seals, nodes, page and master slots, records, blocks, an
//! index over records.
#![tactic(auto)]

#[cfg(test)]
mod blocks;
#[cfg(test)]
mod index;
#[cfg(test)]
mod nodes;
#[cfg(test)]
mod numbers;
#[cfg(test)]
mod records;
#[cfg(test)]
mod slots;
