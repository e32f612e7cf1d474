//! The blocks of a log: records with a header in front and a seal behind.
#![tactic(auto)]

mod block;
mod format;
mod run;

pub use block::{Refusal, belongs, block_bytes, open_block, read_block};
pub use format::{BLOCK, PAYLOAD};
pub use run::valid_run;
