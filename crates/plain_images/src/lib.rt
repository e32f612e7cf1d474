//! The plain, slow program for what an image of the disk stands for: who won and who lost, redo, undo, the recovered pages, the rule
//! of the tree and the map.
#![tactic(auto)]

ghost use Rattle.plain_images.specs.Told.{EveryTold};

mod changes;
mod checks;
mod damages;
mod ends;
mod leaves;
mod order;
mod pages;
pub mod pairs;
mod records;
mod recovered;
mod redone;
mod replayed;
mod tree;
mod words;

pub use changes::applied;
pub use damages::{Damage, first_damage};
pub use ends::{Name, losers, reach, winners};
pub use order::sorted;
pub use pages::{Node, Pair};
pub use records::{Image, Kind, Log, Page, Record, Ref};
pub use recovered::{recovered_page, value};
pub use redone::{Mark, Placed, Redone, redo};
pub use tree::first_break;
pub use words::map;

/// What an image tells of its transactions depends on what its records say of their ends alone.
pub fn every_told()
    ensures { EveryTold }
{}
