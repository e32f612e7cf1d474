//! What a change of pages draws from its worker's clock and log.
//!
//! Between its last latch and its first publish a change touches each page that its record changes, draws the number of the record
//! and stages it. No latch and no row is known here, so whoever has a clock and a log can be drawn from.
#![tactic(auto)]

pub mod draw;
pub mod staged;
