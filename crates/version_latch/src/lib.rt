//! Version latches, as in optimistic lock coupling: a reader remembers the version of a row, loads words of it without a latch,
//! and then sees whether the version is still the same; a writer latches the row from the version that it knows.
//!
//! A `Glimpse` is what a reader has of a row, a `Hold` what a writer has. Both are on any rows (`rows_trait::rows::Rows`).
#![tactic(auto)]

pub mod events;
mod glimpse;
mod hold;

pub use glimpse::{Glimpse, LAST, Latched, Moved, Unheld};
pub use hold::Hold;

// Passed on to the crates above.
pub use rows_trait::names::{Names, Nothing};
pub use rows_trait::plain::PlainRows;
pub use rows_trait::rows::Rows;
pub use rows_trait::trace::Trace;
pub use rows_trait::{Node, every_low};
