//! The commands of the program: what it reads, what it prints, the status that it ends with.
#![tactic(auto)]

mod command_line;
mod disk_run;
mod dump;
mod engine_lines;
mod failure;
mod gate;
mod lines;
mod make;
mod pairs;
mod program;
mod words;

pub use disk_run::run_disk;
pub use dump::dump_disk;
pub use failure::Failure;
pub use gate::Gate;
pub use make::{Workload, make_disk};
pub use program::{Ended, run};
pub use words::{Command, read_words};

// Passed on to the crates above.
pub use buffered_engine::{
    Closed, DiskFault, Durable, Engine, Hosts, MemSink, MemSource, Opened, Put, Record, Sink, Size,
    Stages, StdSink, StdSource, Unanswered, Unopened, WorkerLog, block_bytes, every_master_in,
    stage_end,
};
pub use script_lang::LineReader;
pub use script_run::{Stop, run_script};
