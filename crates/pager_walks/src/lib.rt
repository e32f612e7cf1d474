//! A walk of random calls of a session whose pages need not be in memory, beside a plain program, with crashes.
#![tactic(auto)]

#[cfg(test)]
mod agrees;
#[cfg(test)]
mod calls;
#[cfg(test)]
mod counts;
#[cfg(test)]
mod crashes;
#[cfg(test)]
mod images;
#[cfg(test)]
mod nodes;
#[cfg(test)]
mod plain;
#[cfg(test)]
mod pool;
#[cfg(test)]
mod random;
#[cfg(test)]
mod slots;
#[cfg(test)]
mod trees;
#[cfg(test)]
mod walks;
#[cfg(test)]
mod wrong;
