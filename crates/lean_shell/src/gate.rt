// Where a worker of a round can be held.

/// A round calls it before and after each line of a worker, the lines counted from 1.
pub trait Gate {
    fn pass(&self, worker: u32, call: u64);

    fn answered(&self, worker: u32, call: u64);
}
