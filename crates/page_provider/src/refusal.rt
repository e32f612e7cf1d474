//! Why the pager refused.
use btree_descent::{Latched, Moved};
use disk_runs::Seal;

#[derive(Clone, Copy)]
pub enum Refusal {
    /// A row had another version at the second look than at the first.
    Moved(Moved),
    /// A row was held by another seat.
    Latched(Latched),
    /// No frame can be given: each has a page of the path, or is latched, or its page is above what is flushed
    /// everywhere, or waits for a worker.
    PoolFull {
        path: u32,
        latched: u32,
        above: u32,
        held: u32,
    },
    /// Fewer pages are free than were asked for.
    NoPages,
    /// The slot of the page that counts holds no valid page, and this is what both are. The other one is never taken for it.
    Damaged {
        page: u32,
        counts: Seal,
        other: Seal,
    },
    /// The page that was read is not the one that left its frame: it has other numbers, fences or children.
    Altered {
        page: u32,
    },
    DiskFault,
    /// The version of the row has come to the last one, or the global epoch has.
    RowSpent {
        row: u32,
    },
    /// An earlier call met a page that was damaged or altered, or a fault of the device.
    Broken,
}
