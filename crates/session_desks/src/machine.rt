// What works on rows and disk: sessions that take turns.
ghost use Rattle.std.specs.Prelude.{◌≡◌, ◌≤◌, ◌<◌};
ghost use Rattle.session_desks.specs.Parts.{HasTurned, IsSound, Works};

use crate::desk::{Desk, turn_to};
use session_state::{Latches, Master, PlainRows, Stages, Trace, Work};

/// The rows and their seat, the disk and the session whose turn it is with its log, the other sessions at their desks, the marks of latched lock rows, and the master
/// that counts.
pub struct Machine<D> {
    pub rows: PlainRows,
    pub seat: Trace,
    pub work: Work<D>,
    pub desks: Vec<Desk>,
    pub latches: Latches,
    pub master: Master,
}

impl<D: Stages> Machine<D> {
    /// The turn goes to this session.
    #[inline(always)]
    pub fn turn_to(&mut self, session: u32)
        requires session { (0 < session) × (session ≤ self.old.work.session.workers) }
        requires machine { IsSound self.old }
        requires works { Works self.old }
        ensures machine { IsSound self.new }
        ensures turned { HasTurned session self.old self.new }
        ensures works { Works self.new }
        ensures same { (self.new.seat.view ≡ self.old.seat.view) × (self.new.work.disk ≡ self.old.work.disk) × (self.new.master ≡ self.old.master) × (self.new.work.session.group ≡ self.old.work.session.group) }
    {
        turn_to(&mut self.work, &mut self.desks, session);
    }
}
