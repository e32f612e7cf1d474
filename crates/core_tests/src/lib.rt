//! Small lists of events by the plain core, and every crash of the states that some leave, by the plain programs of images.
#![tactic(auto)]

#[cfg(test)]
mod crashes;
#[cfg(test)]
mod expectations;
#[cfg(test)]
mod images;
#[cfg(test)]
mod journals;
#[cfg(test)]
mod lists;
#[cfg(test)]
mod maps;
#[cfg(test)]
mod openings;
#[cfg(test)]
mod runs;
#[cfg(test)]
mod small_images;
#[cfg(test)]
mod steps;
#[cfg(test)]
mod tests;
#[cfg(test)]
mod walks;
