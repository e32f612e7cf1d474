//! Why a page was not taken from its row.
use btree_descent::{Latched, Moved};

/// A row was not as it has to be. A miss was appended: try again.
#[derive(Clone, Copy)]
pub enum Unseen {
    /// The row of the page or of a child had another version at the second look than at the first.
    Moved(Moved),
    /// The row of the page or of a child was held.
    Latched(Latched),
}
