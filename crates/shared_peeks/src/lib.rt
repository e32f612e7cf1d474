//! Two workers on shared rows, each from a thread of its own, which peek, find or lock keys: what tests and measurements call.
#![tactic(auto)]

pub mod finds;
pub mod locks;
pub mod peeks;
