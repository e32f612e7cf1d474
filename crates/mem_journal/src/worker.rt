// The sessions' workers.
use flush_avoidance::Clock;

/// A worker: its clock, how many transactions it has begun, the number of its last end, and up to where its log is flushed.
#[derive(Clone, Copy)]
pub struct Worker {
    pub clock: Clock,
    pub txn: u64,
    pub end: u64,
    pub flushed: u64,
}
