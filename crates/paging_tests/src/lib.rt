//! Random scripts of several sessions over trees that are larger than the frames, beside a plain map; their crashes, and calls of the disk that fail.
#![tactic(auto)]

#[cfg(test)]
mod cases;
#[cfg(test)]
mod flawed;
#[cfg(test)]
mod found;
#[cfg(test)]
mod plain;
#[cfg(test)]
mod rows;
#[cfg(test)]
mod runs;
#[cfg(test)]
mod scripts;
#[cfg(test)]
mod sinks;
#[cfg(test)]
mod walks;
