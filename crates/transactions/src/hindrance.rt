// Why a call is not done.

/// How a lock row is held: with others that read, or by one alone.
#[derive(Clone, Copy)]
pub enum Mode {
    Shared,
    Alone,
}

/// What index, locks or logs met, for which a call is not done.
#[derive(Clone, Copy, PartialEq, Eq)]
pub enum Hindrance {
    /// A row's version has reached its end.
    RowSpent,
    /// The row's latch was held by another.
    Latched {
        row: u32,
        word: u64,
    },
    /// The row has changed since it was looked at.
    Moved {
        row: u32,
        seen: u64,
        found: u64,
    },
    /// This session holds the key's lock.
    Conflict {
        holder: u32,
    },
    /// A device failed. Nothing is used again.
    DiskFault,
    /// A page that was needed has no valid slot. Nothing is used again.
    Damaged {
        area: u32,
        place: u64,
    },
    /// No frame can be emptied: so many are on the path, latched, above what is flushed, held by epochs.
    PoolFull {
        path: u32,
        latched: u32,
        above: u32,
        held: u32,
    },
    /// The tree has reached its greatest height.
    TooTall,
    /// Fewer pages are free than the change takes.
    NoPages,
    /// Others filled the leaf again and again.
    Refilled,
}

/// Why a session's call is refused.
#[derive(Clone, Copy, PartialEq, Eq)]
pub enum Refusal {
    /// The session has an open transaction.
    InTransaction,
    /// The session has no open transaction, or one whose abort is half done.
    NoTransaction,
    /// The transaction has made as many changes as one may.
    TooLong,
    /// The session's log holds `used` of `limit` blocks.
    LogFull { used: u32, limit: u32 },
    /// The session's clock has reached its end.
    ClockSpent,
    /// What index, locks or logs met.
    Hindered(Hindrance),
}

/// The end of a transaction: its number in its session, its log, the number of its end record, and up to which number all logs
/// have to be flushed for it.
#[derive(Clone, Copy, PartialEq, Eq)]
pub struct Receipt {
    pub txn: u64,
    pub log: u32,
    pub gsn: u64,
    pub need: u64,
}
