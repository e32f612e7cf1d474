// What is told of a record without reading it.

/// The number and the transaction of a record, the log and the place of the block in which it was found, and its kind, as it
/// stands on disks.
#[derive(Clone, Copy, Debug, PartialEq, Eq)]
pub struct Head {
    pub number: u64,
    pub txn: u64,
    pub log: u8,
    pub place: u16,
    pub kind: u8,
}
