// A session beside another one.
ghost use Rattle.std.specs.Prelude.{◌≡◌, ◌≤◌, [], IfOk};
ghost use Rattle.page_model.specs.Limits.{most_sessions};

use crate::free::FreePages;
use crate::held::HeldRows;
use crate::session::Session;
use crate::undo::UndoList;
use std::alloc::{AllocError, Global};

/// A further session of the same rows as the first one, by its number. Which pages are free is known to the session whose turn it is.
pub fn further_session(alloc: Global, own: u32, first: &Session) -> Result<Session, AllocError>
    requires own { own ≤ most_sessions }
    requires undo { first.now.undo ≡ [] }
    requires held { first.now.held.rows ≡ [] }
    ensures { IfOk result (λ s. (few : _) × (s ≡ record first.now { own = own; free = []; few = few })) }
{
    Ok(Session {
        own,
        workers: first.workers,
        group: first.group,
        works: first.works,
        is_open: first.is_open,
        is_half_aborted: first.is_half_aborted,
        txn: first.txn,
        clock: first.clock,
        end: first.end,
        unflushed: first.unflushed,
        frames: first.frames,
        first: first.first,
        undo: UndoList::new(alloc)?,
        held: HeldRows::new(alloc, first.held.count())?,
        free: FreePages::new(alloc, &[])?,
    })
}
