//! What recovery gives from every crash of every run.
//!
//! Read specs/Crashes: what a crash leaves of the logs and the pages, and what recovery makes of it.
#![tactic(auto)]

ghost use Rattle.core_crash.specs.Crashes.{EveryCrash, EveryStored, EveryReopening, EverySerial};
ghost use Rattle.core_crash.specs.Reaches.{EveryFound};
ghost use Rattle.core_crash.specs.Ripe.{EveryRipe};
ghost use Rattle.core_crash.specs.Example.{WorkedExample};

// Passed on to the crates above.
pub use core_paging::{
    every_floor, every_holder, every_need, every_residence, every_rise, every_saved,
};

/// Whatever happens and wherever a crash falls, no rule of an image is broken, and recovery gives the map after a closed
/// set of committed transactions that holds each ripe one.
pub fn every_crash()
    ensures { EveryCrash }
{}

/// Wherever a crash falls, every record up to the reach is found, but those before their log's head.
pub fn every_found()
    ensures { EveryFound }
{}

/// A commit that needs no other log is ripe once its own is flushed up to it; and what is ripe once stays so.
pub fn every_ripe()
    ensures { EveryRipe }
{}

/// The same of recovery from the logs and the saved pages.
pub fn every_stored()
    ensures { EveryStored }
{}

/// After any crash the engine opens again, on the map for which the image stands.
pub fn every_reopening()
    ensures { EveryReopening }
{}

/// Run one after another from the first map, in the order of their commit numbers, the committed transactions give their
/// answers.
pub fn every_serial()
    ensures { EverySerial }
{}

/// A run by hand: after a crash that leaves log 1 empty nothing is kept; after one that leaves its record, the second
/// transaction of worker 2 alone.
pub fn worked_example()
    ensures { WorkedExample }
{}
