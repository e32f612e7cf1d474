// All sessions of a place.
ghost use Rattle.std.specs.Prelude.{◌≡◌, ◌≤◌, ◌<◌, ◌-◌, [], length, slice_get, Some, IfOk};
ghost use Rattle.core_state.specs.Openings.{Opening};
ghost use Rattle.transactions.specs.Memory.{IsUsual};
ghost use Rattle.transactions.specs.Laws.{AllKnow};

use crate::session::Session;
use std::alloc::{AllocError, Global};
use std::marker::Model;

/// Sessions 1, 2, .. up to how many there are. A call is made on one of them, which is lent. Room for all is reserved when they are made,
/// so that no call takes memory.
#[derive(Drop)]
pub struct Sessions {
    sessions: Vec<Session>,
}

impl Model for Sessions {
    ghost use Rattle.std.specs.Prelude.{List};
    ghost use Rattle.transactions.specs.declared.session.Session.{Session};

    ghost Value = { List Session };

    ghost view = { λ s. s.sessions.items };

    ghost invariant = { λ s. Unit {0} };
}

impl Sessions {
    ghost use Rattle.std.specs.Borrow.{sem};
    ghost use Rattle.transactions.specs.Sessions.{AreNew, LendsSession};

    /// So many sessions, of so many lock rows, with no transaction open. Where nothing has happened yet, they all know what the core has
    /// of them. The one error is that memory is refused.
    pub fn new(alloc: Global, sessions: u32, rows: u32) -> Result<Sessions, AllocError>
        requires { (0 < rows) × (rows ≤ 4096) }
        ensures new { IfOk result (λ s. AreNew sessions rows s) }
        ensures know { IfOk result (λ s. (g : Opening) → IsUsual g rows → sessions ≤ g.workers → AllKnow g [] s) }
    {
        let mut list = Vec::with_capacity(alloc, sessions as usize)?;
        for i in 0..sessions {
            list.push_reserved(Session::new(alloc, i + 1, rows)?);
        }
        Ok(Sessions { sessions: list })
    }

    /// How many there are.
    pub fn len(&self) -> usize
        ensures { result ≡ length self.now }
    {
        self.sessions.len()
    }

    /// The session with this number is lent. All others stay as they are.
    pub fn session(&mut self, number: u32) -> &mut Session
        requires { (0 < number) × (number ≤ length self.old) }
        ensures* writes_back { sem 𝓛 (LendsSession self.entry number result) }
        ensures value { slice_get self.old (number - 1) ≡ Some result.now }
    {
        &mut self.sessions[number as usize - 1]
    }
}
