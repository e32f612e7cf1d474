//! The pages on a key's way come into frames one by one, and a free page or a neighbour beside them, for an engine whose pages need not all be in memory.
#![tactic(auto)]

mod beside;
mod coming;
mod joining;
mod wanted;

pub use beside::bring_beside;
pub use coming::bring;
pub use joining::bring_free;
pub use wanted::{Wanted, bring_wanted};
