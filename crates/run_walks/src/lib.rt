//! Random scripts over the program's one call, on a disk in memory that is crashed at random, beside plain programs.
#![tactic(auto)]

#[cfg(test)]
mod cases;
#[cfg(test)]
mod generations;
#[cfg(test)]
mod random;
#[cfg(test)]
mod rule_crashes;
#[cfg(test)]
mod rule_files;
#[cfg(test)]
mod rule_trees;
#[cfg(test)]
mod ruled;
#[cfg(test)]
mod rules;
#[cfg(test)]
mod runs;
#[cfg(test)]
mod sessions;
