//! Epoch-based reclamation, for frames: a worker says since when it looks at frames, and whoever wants to fill a frame
//! with another page asks who was there before. Nobody waits. Read specs/Epochs.antt.
#![tactic(auto)]

mod events;
mod inside;
mod judging;

pub use inside::{enter, leave};
pub use judging::{Ripeness, ripe, stamp, tick};
