// The numbers of a disk.

/// The numbers that `format` is given.
#[derive(Clone, Copy, Debug, PartialEq, Eq)]
pub struct Shape {
    /// Logs, one for each worker, 1 to 16.
    pub workers: u32,
    /// 16 to 4,096.
    pub pages: u32,
    /// Blocks of each log, 64 to 4,096.
    pub blocks: u32,
}
