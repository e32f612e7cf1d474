// What stops a descent to the leaf of a key.
ghost use Rattle.std.specs.Prelude.{◌≡◌};
ghost use Rattle.row_changes.specs.Ways.{IsCut, IsLost};

use session_state::Unserved;

/// The page of the key's way that is not hot, by its number: bring it into a frame, and go to the leaf again.
#[derive(Clone, Copy)]
pub struct Cold {
    pub page: u64,
}

/// Why a change was not made.
#[derive(Clone, Copy)]
pub enum Unmade {
    /// A page of the way is not hot, and nothing was done.
    Cold(Cold),
    /// The key of the change that was to be put back has no entry in its leaf, and nothing was done: the leaf was read again from a device that
    /// gave other entries than it took. Behind rows that began faithful this never comes.
    Lost,
    /// The call is refused, or a device failed.
    Unserved(Unserved),
}

/// Why the call was not served, where the way is hot and no entry is lost.
pub fn unserved_of(unmade: Unmade) -> Unserved
    requires cut { IsCut unmade → ⊥ }
    requires lost { IsLost unmade → ⊥ }
    ensures { unmade ≡ Unmade.Unserved result }
{
    match unmade {
        Unmade::Unserved(why) => why,
        Unmade::Cold(_) => unreachable!(),
        Unmade::Lost => unreachable!(),
    }
}
