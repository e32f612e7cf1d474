//! The plain, slow program of the core of events: what each event needs, and what it does to the state.
#![tactic(auto)]

mod changes;
mod cut;
mod effects;
mod event;
mod frames;
mod moves;
mod needs;
mod page_records;
mod pairs;
mod records;
mod refusal;
mod scan;
mod start;
mod state;
mod steps;
mod structure;
mod table;

pub use event::{Event, Following, Mode};
pub use records::{Entry, Kind, Node, Page, PageKind, PageRecord, Ref};
pub use refusal::Refusal;
pub use state::{Core, Place, Row, Settings, Worker};
pub use table::Table;
