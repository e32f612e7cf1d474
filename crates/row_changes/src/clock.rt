// Where the clock of a session ends.
ghost use Rattle.std.specs.Prelude.{None, ◌≡◌};
ghost use Rattle.session_state.specs.engine_trait.Refusals.{clock_refusal};

use map_model::Refusal;
use session_state::Session;

/// Where the clock ends: no number is drawn from there on.
pub const CLOCK_END: u64 = 1 << 62;

/// Why no further change may be made: a row or a page that was met may have brought the clock to its end.
pub fn clock_refusal(session: &Session) -> Option<Refusal>
    ensures { result ≡ clock_refusal session.now.clock.clock None }
{
    if CLOCK_END <= session.clock.clock {
        return Some(Refusal::ClockSpent);
    }
    None
}
