//! How a lock is held.

/// With others that read, or by one alone.
#[derive(Clone, Copy)]
pub enum Mode {
    Shared,
    Alone,
}
