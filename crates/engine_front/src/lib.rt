//! An engine of several sessions whose pages need not be in memory, as whoever executes a script on it sees it: what each call says of itself.
//!
//! Nothing of its inside is named here. Read call_parts' specs/Deeds, then specs/Stops and specs/Turns, then the trait.
#![tactic(auto)]

ghost use Rattle.std.specs.Prelude.{◌≡◌};

pub mod calls;

/// What an engine has done, for the proof alone: what its seat has seen. It takes no bytes.
pub use rows_trait::trace::Trace as Front;
use rows_trait::trace::Which;

/// What this seat has seen; the caller picks it.
pub fn seen<K: Which>(seat: &Front) -> Front
    ensures { result.view ≡ K.which }
{
    Front::of::<K>()
}
