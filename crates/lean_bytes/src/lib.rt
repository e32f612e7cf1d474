//! Numbers and seals in bytes, and a reader over bytes.
//! What is written and read is named in specs/Numbers.antt and specs/Seals.antt; the laws are in specs/Laws.antt.
#![tactic(auto)]

ghost use Rattle.lean_bytes.specs.Laws.{EveryNumber, EverySeal, EveryWord};

mod cursor;
mod numbers;
mod seals;

pub use cursor::Cur;
pub use numbers::{put_u64, put_words, take_u64, take_words};
pub use seals::{check, seal};

/// A number that was written is read back, and bytes that were read are written back.
pub fn every_number()
    ensures { EveryNumber }
{}

/// The same of lists of words.
pub fn every_word()
    ensures { EveryWord }
{}

/// A seal has sixteen bytes.
pub fn every_seal()
    ensures { EverySeal }
{}
