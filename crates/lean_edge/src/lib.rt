//! Where a script comes from, and where the lines of its answers go.
#![tactic(auto)]

mod calls;
mod mem_sink;
mod mem_source;
mod sink;
mod source;
mod std_sink;
mod std_source;

pub use mem_sink::MemSink;
pub use mem_source::MemSource;
pub use sink::{Put, Sink};
pub use source::{Next, Source};
pub use std_sink::StdSink;
pub use std_source::StdSource;
