// The pages of a key's way are brought into frames, and a free page, or one that a page of the way names, beside them.
ghost use Rattle.std.specs.Prelude.{◌≡◌, ◌⊎◌, ◌<◌, ◌+◌, ◌*◌, ◌^◌, ◌-◌, ℕ, suc, true, false, IfErr, IfOk, OnOk, Err};
ghost use Rattle.core_covers.specs.Lows.{IsAllFlushed};
ghost use Rattle.lean_disk.specs.Faults.{HasCause};
ghost use Rattle.desk_parts.specs.core_calls.LogEvents.{IsTightBeside};
ghost use Rattle.desk_parts.specs.row_words.Openings.{opening};
ghost use Rattle.desk_parts.specs.rows_trait.Views.{state};
ghost use Rattle.paged_rows.specs.Paged.{IsFree, IsNamed, IsWarm};
ghost use Rattle.paged_rows.specs.Warms.{CanBring, most_a_page};
ghost use Rattle.paged_desks.specs.Machines.{IsReady, pages};
ghost use Rattle.paged_desks.specs.Pages.{IsHome, IsNear, IsTightFor, goes_on, most_a_level};
ghost use Rattle.paged_desks.specs.Parts.{HasFailed, HasGone, HasGoneWhere, IsLate, IsLateOrStuck, IsLateOrStuckWhere, IsSpent, StandsNowhere};
ghost use Rattle.paged_desks.specs.Inside.{Comes, HasBroken, HasDone, IsOfPage, IsStopped, IsTooFull, UnreadCause, stopped_by};
ghost use Rattle.paged_desks.specs.declared.warming.Unwarmed.TheVariants as refused;

use crate::laws::laws;
use crate::machine::PagedMachine;
use desk_parts::{DEEPEST, DiskFault, Refusal, Stages};
use paged_rows::Wanted;

/// Why a page was not brought into a frame.
#[derive(Clone, Copy, Debug, PartialEq, Eq)]
pub enum Unwarmed {
    /// The version of a row, or the global epoch, has come to its last number; or a sync is needed, and an abort is half done whose log may not be flushed before it is through.
    RowSpent,
    /// The disk failed.
    DiskFault,
    /// The page has no valid slot.
    Damaged { page: u32 },
    /// The page that was read is not the one that left its frame.
    Altered { page: u32 },
}

// A refusal of the pager, as the machine says it.
fn why_of(why: Refusal) -> Unwarmed
    requires page { IsOfPage why }
    ensures { result ≡ stopped_by why }
{
    match why {
        Refusal::RowSpent { .. } => Unwarmed::RowSpent,
        Refusal::DiskFault => Unwarmed::DiskFault,
        Refusal::Damaged { page, .. } => Unwarmed::Damaged { page },
        Refusal::Altered { page } => Unwarmed::Altered { page },
        Refusal::Moved(_)
        | Refusal::Latched(_)
        | Refusal::PoolFull { .. }
        | Refusal::NoPages
        | Refusal::Broken => unreachable!(),
    }
}

// Whether no frame could be given.
fn is_full(why: Refusal) -> bool
    ensures { result ≡ Rattle.paged_desks.specs.Inside.is_full why }
{
    matches!(why, Refusal::PoolFull { .. })
}

impl<D: Stages> PagedMachine<D> {
    // The machine works on behind a refusal, unless the disk is not to be had any longer.
    fn stop(&mut self, why: Refusal) -> Unwarmed
        requires page { IsOfPage why }
        ensures why { result ≡ stopped_by why }
        ensures goes_on { self.old.pager.broken ≡ false → self.new ≡ self.old }
        ensures stops { self.old.pager.broken ≡ true → IsStopped self.old self.new }
        ensures disk { self.new.machine.work.disk ≡ self.old.machine.work.disk }
    {
        if self.pager.is_broken() {
            self.machine.work.session.works = false;
            return why_of(why);
        }
        why_of(why)
    }

    // Brings what is wanted, where no page is above what is flushed everywhere: then there is a frame for it.
    fn bring_again(&mut self, key: u64, wanted: Wanted) -> Result<Option<u32>, Unwarmed>
        requires ready { IsReady D.story self.old }
        requires low { IsAllFlushed (opening self.old.machine.seat.view.given) (state self.old.machine.seat.view).core }
        requires key { key < 2 ^ 64 - 1 }
        requires can { CanBring key wanted (pages self.old) }
        ensures works { self.new.machine.work.session.works ≡ goes_on result }
        ensures ready { goes_on result ≡ true → IsReady D.story self.new }
        ensures done { goes_on result ≡ true → HasDone D.story (IsTightFor wanted key) (3 * most_a_page) self.old self.new }
        ensures broke { goes_on result ≡ false → HasBroken D.story (3 * most_a_page) self.old self.new }
        ensures spent { result ≡ Err refused.RowSpent → IsLate self.new.machine.seat.view }
        ensures unread { IfErr result (UnreadCause D.story self.old) }
        ensures comes { IfOk result (λ come. Comes key wanted come self.old self.new) }

        ensures cause_disk_fault { HasCause (D.faults self.old.machine.work.disk) (D.faults self.new.machine.work.disk) (result ≡ Err refused.DiskFault) }
    {
        laws();
        match self.bring(key, wanted) {
            Ok(come) => Ok(come),
            Err(why) => Err(self.stop(why)),
        }
    }

    // A page finds no frame: all logs are synced, and it is asked for once more.
    fn sync_and_bring(&mut self, key: u64, wanted: Wanted) -> Result<Option<u32>, Unwarmed>
        requires ready { IsReady D.story self.old }
        requires crowded { IsTooFull key wanted self.old }
        requires key { key < 2 ^ 64 - 1 }
        requires can { CanBring key wanted (pages self.old) }
        ensures works { self.new.machine.work.session.works ≡ goes_on result }
        ensures ready { goes_on result ≡ true → IsReady D.story self.new }
        ensures done { goes_on result ≡ true → HasDone D.story (IsTightFor wanted key) (3 * most_a_page + suc self.old.machine.work.session.workers) self.old self.new }
        ensures broke { goes_on result ≡ false → HasBroken D.story (3 * most_a_page + suc self.old.machine.work.session.workers) self.old self.new }
        ensures stuck { result ≡ Err refused.RowSpent → IsLateOrStuckWhere (IsTightFor wanted key) self.new }
        ensures unread { IfErr result (UnreadCause D.story self.old) }
        ensures comes { IfOk result (λ come. Comes key wanted come self.old self.new) }

        ensures cause_disk_fault { HasCause (D.faults self.old.machine.work.disk) (D.faults self.new.machine.work.disk) (result ≡ Err refused.DiskFault) }
    {
        laws();
        if !self.machine.may_sync() {
            return Err(Unwarmed::RowSpent);
        }
        match self.sync() {
            Ok(_) => self.bring_again(key, wanted),
            Err(DiskFault) => Err(Unwarmed::DiskFault),
        }
    }

    // Brings what is wanted into a frame, behind a sync where it finds none, and answers which. None: all of the key's way is hot.
    fn bring_or_sync(&mut self, key: u64, wanted: Wanted) -> Result<Option<u32>, Unwarmed>
        requires ready { IsReady D.story self.old }
        requires key { key < 2 ^ 64 - 1 }
        requires can { CanBring key wanted (pages self.old) }
        ensures works { self.new.machine.work.session.works ≡ goes_on result }
        ensures ready { goes_on result ≡ true → IsReady D.story self.new }
        ensures done { goes_on result ≡ true → HasDone D.story (IsTightFor wanted key) (most_a_level self.old.machine.work.session.workers) self.old self.new }
        ensures broke { goes_on result ≡ false → HasBroken D.story (most_a_level self.old.machine.work.session.workers) self.old self.new }
        ensures stuck { result ≡ Err refused.RowSpent → IsLateOrStuckWhere (IsTightFor wanted key) self.new }
        ensures unread { IfErr result (UnreadCause D.story self.old) }
        ensures comes { IfOk result (λ come. Comes key wanted come self.old self.new) }

        ensures cause_disk_fault { HasCause (D.faults self.old.machine.work.disk) (D.faults self.new.machine.work.disk) (result ≡ Err refused.DiskFault) }
    {
        laws();
        let why = match self.bring(key, wanted) {
            Ok(come) => return Ok(come),
            Err(why) => why,
        };
        if is_full(why) {
            return self.sync_and_bring(key, wanted);
        }
        Err(self.stop(why))
    }

    /// Brings each page on a key's way into a frame. Where a page finds no frame, since each has a page of the way or one above the number up to which all
    /// logs are flushed, it makes a sync first.
    ///
    /// RowSpent: the version of a row, or the global epoch, has come to its last number; or a sync is needed, and an abort is half done whose log may not be flushed before it is through. DiskFault, Damaged, Altered: the
    /// device failed, or a page is not to be had from it, and from then on the machine works no longer.
    pub fn warm(&mut self, key: u64) -> Result<(), Unwarmed>
        requires ready { IsReady D.story self.old }
        requires key { key < 2 ^ 64 - 1 }
        ensures works { self.new.machine.work.session.works ≡ goes_on result }
        ensures ready { goes_on result ≡ true → IsReady D.story self.new }
        ensures gone { goes_on result ≡ true → HasGone D.story key (9 * most_a_level self.old.machine.work.session.workers) self.old self.new }
        ensures failed { goes_on result ≡ false → HasFailed D.story self.old self.new }
        ensures spent { result ≡ Err refused.RowSpent → IsSpent self.old self.new }
        ensures tight { result ≡ Err refused.RowSpent → IsLateOrStuck key self.new }
        ensures damaged { (page : ℕ) → (result ≡ Err (refused.Damaged page)) ⊎ (result ≡ Err (refused.Altered page)) → StandsNowhere D.story self.old }
        ensures warm { OnOk result (IsWarm (pages self.new) key 0) }

        ensures cause_disk_fault { HasCause (D.faults self.old.machine.work.disk) (D.faults self.new.machine.work.disk) (result ≡ Err refused.DiskFault) }
    {
        laws();
        for _come in 0..DEEPEST + 1 {
            match self.bring_or_sync(key, Wanted::Way) {
                Ok(None) => return Ok(()),
                Ok(Some(_)) => {}
                Err(why) => return Err(why),
            }
        }
        unreachable!()
    }

    /// Brings a free page into a frame, for a change of the tree on a key's way that is to take it, and answers which. The pages of that way, which are
    /// hot, stay so. Where the page finds no frame, since each has a page of the way or one above the number up to which all logs are flushed, it makes a
    /// sync first.
    ///
    /// The refusals are those of `warm`.
    pub fn frame_for(&mut self, key: u64, page: u32) -> Result<u32, Unwarmed>
        requires ready { IsReady D.story self.old }
        requires key { key < 2 ^ 64 - 1 }
        requires free { IsFree (pages self.old) page }
        requires warm { IsWarm (pages self.old) key 0 }
        ensures works { self.new.machine.work.session.works ≡ goes_on result }
        ensures ready { goes_on result ≡ true → IsReady D.story self.new }
        ensures gone { goes_on result ≡ true → HasGone D.story key (most_a_level self.old.machine.work.session.workers) self.old self.new }
        ensures failed { goes_on result ≡ false → HasFailed D.story self.old self.new }
        ensures spent { result ≡ Err refused.RowSpent → IsSpent self.old self.new }
        ensures tight { result ≡ Err refused.RowSpent → IsLateOrStuck key self.new }
        ensures damaged { (page : ℕ) → (result ≡ Err (refused.Damaged page)) ⊎ (result ≡ Err (refused.Altered page)) → StandsNowhere D.story self.old }
        ensures home { IfOk result (λ frame. IsHome key page frame self.old self.new) }

        ensures cause_disk_fault { HasCause (D.faults self.old.machine.work.disk) (D.faults self.new.machine.work.disk) (result ≡ Err refused.DiskFault) }
    {
        laws();
        match self.bring_or_sync(key, Wanted::Free { page }) {
            Ok(Some(frame)) => Ok(frame),
            Ok(None) => unreachable!(),
            Err(why) => Err(why),
        }
    }
    /// Brings a page that a page of a key's way names into a frame, and answers which: a neighbour, with which a page of that way is to be joined. The pages of
    /// the way, which are hot, stay so. Where the page finds no frame, since each has a page of the way or one above the number up to which all logs are
    /// flushed, it makes a sync first.
    ///
    /// The refusals are those of `warm`.
    pub fn beside(&mut self, key: u64, page: u32) -> Result<u32, Unwarmed>
        requires ready { IsReady D.story self.old }
        requires key { key < 2 ^ 64 - 1 }
        requires named { IsNamed (pages self.old) key page }
        requires warm { IsWarm (pages self.old) key 0 }
        ensures works { self.new.machine.work.session.works ≡ goes_on result }
        ensures ready { goes_on result ≡ true → IsReady D.story self.new }
        ensures gone { goes_on result ≡ true → HasGoneWhere D.story (IsTightBeside key page) (most_a_level self.old.machine.work.session.workers) self.old self.new }
        ensures failed { goes_on result ≡ false → HasFailed D.story self.old self.new }
        ensures spent { result ≡ Err refused.RowSpent → IsSpent self.old self.new }
        ensures tight { result ≡ Err refused.RowSpent → IsLateOrStuckWhere (IsTightBeside key page) self.new }
        ensures damaged { (page : ℕ) → (result ≡ Err (refused.Damaged page)) ⊎ (result ≡ Err (refused.Altered page)) → StandsNowhere D.story self.old }
        ensures near { IfOk result (λ frame. IsNear key page frame self.old self.new) }

        ensures cause_disk_fault { HasCause (D.faults self.old.machine.work.disk) (D.faults self.new.machine.work.disk) (result ≡ Err refused.DiskFault) }
    {
        laws();
        match self.bring_or_sync(key, Wanted::Beside { page }) {
            Ok(Some(place)) => Ok(place),
            Ok(None) => unreachable!(),
            Err(why) => Err(why),
        }
    }
}
