// How a call is answered where the pages of a way did not come.
ghost use Rattle.std.specs.Prelude.{◌≡◌};
ghost use Rattle.paged_desks.specs.Calls.{unserved_of};

use crate::warming::Unwarmed;
use desk_parts::{Unanswered, Unserved};
use map_model::Refusal;

/// Why the pages of a way were not brought into frames, as a call is answered.
pub fn unserved_of(why: Unwarmed) -> Unserved
    ensures { result ≡ unserved_of why }
{
    match why {
        Unwarmed::RowSpent => Unserved::Refused(Refusal::RowSpent),
        Unwarmed::DiskFault => Unserved::Unanswered(Unanswered::DiskFault),
        Unwarmed::Damaged { page } | Unwarmed::Altered { page } => {
            Unserved::Unanswered(Unanswered::Damaged {
                place: u64::from(page),
            })
        }
    }
}
