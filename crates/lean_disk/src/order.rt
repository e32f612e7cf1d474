// Whether the calls of an area that comes back can be calls of the disk.
ghost use Rattle.std.specs.Prelude.{◌≡◌};
ghost use Rattle.lean_disk.specs.Inside.Steps.{areas_step, is_no_later, lines_step, stays_own, step_together, steps_with};

use crate::{Call, Slot};

fn is_no_later(one: &Call, other: &Call) -> bool
    ensures { result ≡ is_no_later one.now other.now }
{
    one.number > other.number || one.notes <= other.notes
}

// Of two calls of one disk, the one with the greater number has no fewer notes before it.
fn step_together(one: &Call, other: &Call) -> bool
    ensures { result ≡ step_together one.now other.now }
{
    is_no_later(one, other) && is_no_later(other, one)
}

fn steps_with(call: &Call, calls: &[Call]) -> bool
    ensures { result ≡ steps_with call.now calls.now }
{
    for other in calls {
        if !step_together(call, other) {
            return false;
        }
    }
    true
}

// Each call of the one list and each of the other.
fn lines_step(calls: &[Call], others: &[Call]) -> bool
    ensures { result ≡ lines_step calls.now others.now }
{
    for call in calls {
        if !steps_with(call, others) {
            return false;
        }
    }
    true
}

// Each of these calls and each call of these areas.
fn areas_step(calls: &[Call], areas: &[Slot]) -> bool
    ensures { result ≡ areas_step calls.now areas.now }
{
    for slot in areas {
        if !lines_step(calls, slot.calls()) {
            return false;
        }
    }
    true
}

/// Whether the areas are the disk's own still, where one with these calls comes back.
pub fn stays_own(own: bool, calls: &[Call], areas: &[Slot]) -> bool
    ensures { result ≡ stays_own own calls.now areas.now }
{
    own && lines_step(calls, calls) && areas_step(calls, areas)
}
