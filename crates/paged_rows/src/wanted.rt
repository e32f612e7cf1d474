// What is brought into a frame: a page of a key's way, a free one, or one beside the way.
ghost use Rattle.std.specs.Prelude.{◌≡◌, ◌<◌, ◌^◌, ◌-◌, true, false, IfOk, IfErr, Err};
ghost use Rattle.lean_disk.specs.Faults.{HasCause};
ghost use Rattle.lean_disk.specs.Moments.{Framed};
ghost use Rattle.page_calls.specs.Calls.{KeepsWithin};
ghost use Rattle.page_provider.specs.Disks.{Disked};
ghost use Rattle.page_provider.specs.declared.refusal.Refusal.TheVariants as refusal;
ghost use Rattle.paged_rows.specs.Paged.{IsFedIfFaithful, IsPaged, paged};
ghost use Rattle.paged_rows.specs.Warms.{Brings, CanBring, IsRefusedTo, LostTo, ReadsUnlessSaved};

use crate::beside::bring_beside;
use crate::coming::bring;
use crate::joining::bring_free;
use btree_descent::Rows;
use lean_disk::Part;
use page_provider::{Pager, Refusal};

/// What is brought into a frame.
#[derive(Clone, Copy)]
pub enum Wanted {
    /// The first page of the key's way that is not hot.
    Way,
    /// This page, which is free, while the pages of the key's way stay.
    Free { page: u32 },
    /// This page, which a page of the key's way names, while the pages of that way stay.
    Beside { page: u32 },
}

/// Brings what is wanted, by `bring`, `bring_free` or `bring_beside`. None: the key's way was wanted, and is hot.
pub fn bring_wanted<R: Rows, P: Part>(
    rows: &mut R,
    seat: &mut R::Seat,
    pager: &mut Pager,
    dev: &mut P,
    worker: u32,
    key: u64,
    wanted: Wanted,
) -> Result<Option<u32>, Refusal>
    requires fits { R.fits rows.old seat.old }
    requires paged { IsPaged (paged (R.shape rows.old) (R.view seat.old) pager.old) }
    requires area { (P.seat dev.old).area ≡ 1 }
    requires key { key < 2 ^ 64 - 1 }
    requires well { pager.old.broken ≡ false }
    requires can { CanBring key wanted (paged (R.shape rows.old) (R.view seat.old) pager.old) }
    requires fed { IsFedIfFaithful (paged (R.shape rows.old) (R.view seat.old) pager.old) (P.story dev.old) }
    ensures fits { R.fits rows.new seat.new × (R.shape rows.new ≡ R.shape rows.old) }
    ensures paged { IsPaged (paged (R.shape rows.new) (R.view seat.new) pager.new) }
    ensures ok { IfOk result (λ come. Brings key wanted come (paged (R.shape rows.old) (R.view seat.old) pager.old) (paged (R.shape rows.new) (R.view seat.new) pager.new)) }
    ensures err { IfErr result (λ why. IsRefusedTo key wanted (paged (R.shape rows.old) (R.view seat.old) pager.old) why (paged (R.shape rows.new) (R.view seat.new) pager.new)) }
    ensures lost { IfErr result (LostTo (paged (R.shape rows.old) (R.view seat.old) pager.old) (P.story dev.old)) }
    ensures fed { pager.new.broken ≡ false → IsFedIfFaithful (paged (R.shape rows.new) (R.view seat.new) pager.new) (P.story dev.new) }
    ensures frame { Framed 1 (P.story dev.old) (P.story dev.new) }
    ensures within { KeepsWithin (P.story dev.old) (P.story dev.new) }
    ensures reads { ReadsUnlessSaved (paged (R.shape rows.old) (R.view seat.old) pager.old) (paged (R.shape rows.new) (R.view seat.new) pager.new) (P.story dev.old) (P.story dev.new) }
    ensures disk { Disked (R.shape rows.old).alone pager.old (R.view seat.old) pager.new (R.view seat.new) (P.story dev.old) (P.story dev.new) }
    ensures seat { P.seat dev.new ≡ P.seat dev.old }

    ensures cause_disk_fault { HasCause (P.faults dev.old) (P.faults dev.new) (result ≡ Err refusal.DiskFault) }
{
    match wanted {
        Wanted::Way => bring(rows, seat, pager, dev, worker, key),
        Wanted::Free { page } => {
            let frame = bring_free(rows, seat, pager, dev, worker, key, page)?;
            Ok(Some(frame))
        }
        Wanted::Beside { page } => {
            let frame = bring_beside(rows, seat, pager, dev, worker, key, page)?;
            Ok(Some(frame))
        }
    }
}
