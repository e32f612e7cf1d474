// What opening gives.
ghost use Rattle.std.specs.Prelude.{◌≡◌, ℕ, [], None, false, IfOk};
ghost use Rattle.core_state.specs.States as states;
ghost use Rattle.core_state.specs.Openings as openings;
ghost use Rattle.plain_core.specs.Tables.{at};
ghost use Rattle.plain_core.specs.Records.{page_of};
ghost use Rattle.plain_core.specs.States.{Rest, opening, row_of, worker_of, state_of};

use crate::records::Page;
use crate::state::{Core, Place, Row, Settings, Worker};
use crate::table::Table;
use std::alloc::{AllocError, Global};

impl Row {
    // Nobody holds it.
    fn free(alloc: Global) -> Row
        ensures { row_of result ≡ record { holder = None; readers = []; number = 0; log = 0; read_end = 0 } }
    {
        Row {
            holder: None,
            readers: Vec::new(alloc),
            number: 0,
            log: 0,
            read_end: 0,
        }
    }
}

impl Worker {
    // It is not open, and owes nothing.
    fn new(alloc: Global, base: u64) -> Worker
        ensures { worker_of result ≡ record { clock = base; floor = base; debt = 0; txn = 0; end = base; is_open = false; changes = [] } }
    {
        Worker {
            clock: base,
            floor: base,
            debt: 0,
            txn: 0,
            end: base,
            is_open: false,
            changes: Vec::new(alloc),
        }
    }
}

impl Core {
    /// Nothing is open, locked, owed or logged; page 0 alone is hot, in frame 0.
    pub fn start(alloc: Global, settings: Settings, pages: Table<Page>) -> Result<Core, AllocError>
        ensures { IfOk result (λ core. (core.settings ≡ settings) × ((x : Rest settings) → ((p : ℕ) → page_of (at pages p) ≡ openings.start_page (opening settings x) p) → state_of core ≡ states.start (opening settings x))) }
    {
        let saved = pages.copy(alloc)?;
        let mut places = Table::new(alloc, Place::Cold);
        places.set(0, Place::Hot { frame: 0 })?;
        let rows = Table::new(alloc, Row::free(alloc));
        let workers = Table::new(alloc, Worker::new(alloc, settings.base));
        let flushed = Table::new(alloc, settings.base);
        let heads = Table::new(alloc, 0);
        let inside = Table::new(alloc, None);
        Ok(Core {
            settings,
            entries: Vec::new(alloc),
            pages,
            saved,
            places,
            queue: Vec::new(alloc),
            rows,
            workers,
            flushed,
            heads,
            floor: settings.base,
            cut: 0,
            posted: 0,
            inside,
            epoch: 0,
        })
    }
}
