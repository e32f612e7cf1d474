//! The calls of sessions: transactions with undo and key locks, over an index, lock rows and logs.
#![tactic(auto)]

ghost use Rattle.transactions.specs.Laws.{EverySession, EveryOther};

mod begin;
mod calls;
mod ends;
mod hindrance;
mod places;
mod rows;
mod session;
mod sessions;

pub use hindrance::{Hindrance, Mode, Receipt, Refusal};
pub use places::{Index, Journal, Locks, Place};
pub use session::{Session, Undo};
pub use sessions::Sessions;

/// What a session knows of the core lasts through events that are no steps of its own.
pub fn every_other()
    ensures { EveryOther }
{}

/// Where nobody else steps, all sessions know what the core has of them after a call of one of them.
pub fn every_session()
    ensures { EverySession }
{}
