//! Tests of scripts and of the program's commands, on a disk in memory and on files.
#![tactic(auto)]

#[cfg(test)]
mod cases;
#[cfg(test)]
mod commands;
#[cfg(test)]
mod file_disks;
#[cfg(test)]
mod files;
#[cfg(test)]
mod make_words;
#[cfg(test)]
mod makes;
#[cfg(test)]
mod programs;
#[cfg(test)]
mod rows;
#[cfg(test)]
mod scans;
#[cfg(test)]
mod scripts;
#[cfg(test)]
mod sessions;
#[cfg(test)]
mod sweeps;
#[cfg(test)]
mod texts;
#[cfg(test)]
mod words;
