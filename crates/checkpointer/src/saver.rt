//! Who saves the pages that stand in frames.
ghost use Rattle.std.specs.Prelude.{◌≡◌, ◌<◌, ◌≤◌, ◌+◌, ◌↔◌, ℕ, List, Err, IsErr, OnOk};
ghost use Rattle.disk_runs.specs.core_state.Events.{Event};
ghost use Rattle.disk_runs.specs.core_state.Openings.{Opening};
ghost use Rattle.disk_runs.specs.core_state.Steps.{state_after};
ghost use Rattle.disk_runs.specs.Stands.{Known};
ghost use Rattle.lean_disk.specs.Faults.{HasCause};
ghost use Rattle.lean_disk.specs.Moments.{Framed};
ghost use Rattle.checkpointer.specs.Savers.{IsFound, KeepsRun, Looked, MaySave, Saves, Settles, Stops};
ghost use Rattle.checkpointer.specs.declared.saver.NotSaved.TheVariants as not_saved;

use disk_runs::DiskFault;
use lean_disk::Part;

/// A page that is not on the disk as it stands in its frame, and its number.
#[derive(Clone, Copy, Debug, PartialEq, Eq)]
pub struct Dirty {
    pub page: u32,
    pub gsn: u64,
}

/// Why a page was not saved.
#[derive(Clone, Copy, Debug, PartialEq, Eq)]
pub enum NotSaved {
    /// The version of the frame's row has come to its last number: nothing was written.
    RowSpent,
    DiskFault,
}

/// Rows with the pages in frames, and what is known of the pages' slots on the disk. Nobody else steps on the rows.
///
/// Rows do not know in which run of the core they stand: each call speaks of every opening as which they may have begun.
/// The pages' area comes with a call: over a whole disk an impl's methods could call nothing that is generic over it.
pub trait Saver<P: Part> {
    /// Its rows may have begun as this opening.
    ghost opens: { Self → Opening → Type 0 };

    /// The events that it has seen since, and those before the rows began.
    ghost front: { Self → List Event };

    /// What it knows of the slots is right of this.
    ghost knows: { Self → Known → Type 0 };

    /// How many frames there are.
    ghost frames_of: { Self → ℕ };

    /// It may be called: no device has failed it.
    ghost ready: { Self → Type 0 };

    /// It has come there from an earlier one, by so many events at most, which a saver says of itself.
    ghost since: { Self → ℕ → Self → Type 0 };

    /// A row of it has come to its last version.
    ghost spent: { Self → Type 0 };

    /// How many frames there are.
    fn frames(&self) -> u32
        requires ready { ready self.now }
        ensures count { result ≡ frames_of self.now }
        ensures fits { (o : Opening) → opens self.now o → o.frames ≡ frames_of self.now };

    /// The dirty page of a frame, if it has one.
    fn dirty(&mut self, frame: u32) -> Option<Dirty>
        requires ready { ready self.old }
        requires frame { frame < frames_of self.old }
        ensures ready { ready self.new }
        ensures frames { frames_of self.new ≡ frames_of self.old }
        ensures found { (o : Opening) → opens self.old o → IsFound (state_after o (front self.old)) frame result }
        ensures looked { Looked (opens self.old) (opens self.new) (front self.old) (front self.new) (knows self.old) (knows self.new) }
        ensures since { (base : Self) (n : ℕ) → since base n self.old → since base n self.new };

    /// Saves the dirty page of a frame to the slot that is not its firm one, with a sync of the pages before it if that one
    /// was written since the last.
    fn save(&mut self, dev: &mut P, frame: u32) -> Result<(), NotSaved>
        requires ready { ready self.old }
        requires area { (P.seat dev.old).area ≡ 1 }
        requires frame { frame < frames_of self.old }
        requires dirty { (o : Opening) → opens self.old o → MaySave o (state_after o (front self.old)) frame }
        ensures ready { (result ≡ Err not_saved.DiskFault → ⊥) → ready self.new }
        ensures frames { frames_of self.new ≡ frames_of self.old }
        ensures opens { (o : Opening) → opens self.old o ↔ opens self.new o }
        ensures saved { OnOk result ((o : Opening) → opens self.old o → Saves o (front self.old) (front self.new) frame (knows self.old) (knows self.new) (P.story dev.old) (P.story dev.new)) }
        ensures stopped { result ≡ Err not_saved.RowSpent → (dev.new ≡ dev.old) × ((o : Opening) → opens self.old o → Stops o (front self.old) (front self.new) (knows self.old) (knows self.new) (P.story dev.old) (P.story dev.new)) }
        ensures keeps { (o : Opening) → opens self.old o → KeepsRun o (front self.old) (knows self.old) (P.story dev.old) (P.story dev.new) }
        ensures since { (base : Self) (n : ℕ) → since base n self.old → since base (n + 1) self.new }
        ensures frame { Framed 1 (P.story dev.old) (P.story dev.new) }
        ensures seat { P.seat dev.new ≡ P.seat dev.old }

        ensures cause_row_spent { result ≡ Err not_saved.RowSpent → spent self.new }
        ensures cause_disk_fault { HasCause (P.faults dev.old) (P.faults dev.new) (result ≡ Err not_saved.DiskFault) };

    /// Syncs the pages' area.
    fn settle(&mut self, dev: &mut P) -> Result<(), DiskFault>
        requires ready { ready self.old }
        requires area { (P.seat dev.old).area ≡ 1 }
        ensures ready { OnOk result (ready self.new) }
        ensures opens { (o : Opening) → opens self.old o ↔ opens self.new o }
        ensures settled { OnOk result ((o : Opening) → opens self.old o → Settles o (front self.old) (front self.new) (knows self.old) (knows self.new) (P.story dev.old) (P.story dev.new)) }
        ensures keeps { (o : Opening) → opens self.old o → KeepsRun o (front self.old) (knows self.old) (P.story dev.old) (P.story dev.new) }
        ensures since { (base : Self) (n : ℕ) → since base n self.old → since base n self.new }
        ensures frame { Framed 1 (P.story dev.old) (P.story dev.new) }
        ensures seat { P.seat dev.new ≡ P.seat dev.old }

        ensures cause { HasCause (P.faults dev.old) (P.faults dev.new) (IsErr result) };
}
