//! Sessions of several workers over plain rows, against plain maps and lists.
#![tactic(auto)]

#[cfg(test)]
mod answers;
#[cfg(test)]
mod cases;
#[cfg(test)]
mod draws;
#[cfg(test)]
mod expect;
#[cfg(test)]
mod model;
#[cfg(test)]
mod openings;
#[cfg(test)]
mod random;
#[cfg(test)]
mod shrinking;
#[cfg(test)]
mod stores;
#[cfg(test)]
mod structure;
