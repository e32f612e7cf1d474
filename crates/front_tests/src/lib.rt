//! Tests of a script over an engine that answers by rote.
#![tactic(auto)]

#[cfg(test)]
mod puppet;
#[cfg(test)]
mod scripts;
