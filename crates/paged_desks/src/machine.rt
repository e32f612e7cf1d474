// A machine with the pager that brings pages into its frames.
ghost use Rattle.std.specs.Prelude.{◌≡◌, ◌↔◌, ◌<◌, ◌*◌, ◌^◌, ◌-◌, true, false, IfOk, IfErr, IsErr, IsOk, Err};
ghost use Rattle.lean_disk.specs.Faults.{HasCause};
ghost use Rattle.desk_parts.specs.page_provider.declared.refusal.Refusal.TheVariants as refusal;
ghost use Rattle.paged_rows.specs.Warms.{Brings, CanBring, IsRefusedTo, most_a_page};
ghost use Rattle.desk_parts.specs.session_desks.Parts.{MaySync};
ghost use Rattle.paged_desks.specs.Machines.{IsReady, pages};
ghost use Rattle.paged_desks.specs.Pages.{IsTightFor};
ghost use Rattle.paged_desks.specs.Inside.{AwayCause, HasBroken, HasDone, IsBeside, LateCause};
ghost use Rattle.paged_desks.specs.Syncs.{HasNotSynced, IsSynced};

use crate::laws::laws;
use desk_parts::{DiskFault, Machine, Pager, Refusal, Rows, Stages};
use lean_disk::AreaOf;
use paged_rows::{Wanted, bring_wanted};

/// Sessions that take turns on rows and a disk, and the pager that moves pages between these two.
pub struct PagedMachine<D> {
    pub machine: Machine<D>,
    pub pager: Pager,
}

impl<D: Stages> PagedMachine<D> {
    // Brings what is wanted into a frame, and answers which. None: all of the key's way is hot.
    pub(crate) fn bring(&mut self, key: u64, wanted: Wanted) -> Result<Option<u32>, Refusal>
        requires ready { IsReady D.story self.old }
        requires key { key < 2 ^ 64 - 1 }
        requires can { CanBring key wanted (pages self.old) }
        ensures ready { self.new.pager.broken ≡ false → IsReady D.story self.new }
        ensures beside { IsBeside self.old self.new }
        ensures done { self.new.pager.broken ≡ false → HasDone D.story (IsTightFor wanted key) (3 * most_a_page) self.old self.new }
        ensures broke { self.new.pager.broken ≡ true → HasBroken D.story (3 * most_a_page) self.old self.new }
        ensures ok { IfOk result (λ come. Brings key wanted come (pages self.old) (pages self.new)) }
        ensures err { IfErr result (λ why. IsRefusedTo key wanted (pages self.old) why (pages self.new)) }
        ensures late { IfErr result (LateCause self.new.machine.seat.view) }
        ensures away { IfErr result (AwayCause D.story self.old) }

        ensures cause_disk_fault { HasCause (D.faults self.old.machine.work.disk) (D.faults self.new.machine.work.disk) (result ≡ Err refusal.DiskFault) }
    {
        laws();
        desk_parts::every_low();
        desk_parts::every_disk_part::<D>();
        desk_parts::every_found::<D>();
        let worker = self.machine.work.session.own;
        // Each page has its slots.
        self.pager.pages();
        let came = bring_wanted(
            &mut self.machine.rows,
            &mut self.machine.seat,
            &mut self.pager,
            &mut AreaOf::new(&mut self.machine.work.disk, 1),
            worker,
            key,
            wanted,
        );
        self.pager.pages();
        // The numbers of latches that were loaded are low.
        self.machine.rows.versions(&self.machine.seat);
        came
    }

    /// Flushes all logs, and syncs them up to the greatest clock; then the turn is again with whoever has it. The answer is that number.
    pub fn sync(&mut self) -> Result<u64, DiskFault>
        requires ready { IsReady D.story self.old }
        requires may { MaySync self.old.machine }
        ensures ready { IsOk result → IsReady D.story self.new }
        ensures synced { IfOk result (IsSynced D.story self.old self.new) }
        ensures failed { IsErr result → HasNotSynced D.story self.old self.new }
        ensures works { self.new.machine.work.session.works ≡ true ↔ (IsErr result → ⊥) }

        ensures cause_disk_fault { HasCause (D.faults self.old.machine.work.disk) (D.faults self.new.machine.work.disk) (IsErr result) }
    {
        laws();
        desk_parts::every_disk_part::<D>();
        let own = self.machine.work.session.own;
        let number = self.machine.sync_all()?;
        self.machine.turn_to(own);
        Ok(number)
    }
}
