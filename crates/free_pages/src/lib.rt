//! A set of page numbers of which the least is asked: the free pages of a file that may be given out next.
#![tactic(auto)]

mod blocks;
mod pages;

pub use pages::FreePages;
