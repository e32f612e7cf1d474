//! The lines of a script, the lines of its output, and a reader of lines.
#![tactic(auto)]

mod line;
mod notice;
mod reader;
mod reply;
mod text;

pub use line::{Bad, LINE, Line, read_line};
pub use notice::{
    ALREADY_FORMATTED, DISK_FAULT, END, NO_MEMORY, NOT_FORMATTED, READ_FAULT, USAGE, damaged_bytes,
    fixed_lines, formatted_bytes, made_bytes, notices_are_no_replies, opened_bytes, pair_bytes,
    refused_bytes,
};
pub use reader::{LineReader, NextLine};
pub use reply::{REPLY, durable_bytes, replies_are_read_back, reply_bytes};
