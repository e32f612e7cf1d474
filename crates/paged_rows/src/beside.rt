// A page beside a key's way is brought into a frame.
ghost use Rattle.std.specs.Prelude.{◌≡◌, ◌<◌, ◌^◌, ◌-◌, true, false, IfOk, IfErr, Err};
ghost use Rattle.lean_disk.specs.Faults.{HasCause};
ghost use Rattle.lean_disk.specs.Moments.{Framed};
ghost use Rattle.page_calls.specs.Calls.{KeepsWithin};
ghost use Rattle.page_provider.specs.Disks.{Disked};
ghost use Rattle.page_provider.specs.declared.refusal.Refusal.TheVariants as refusal;
ghost use Rattle.paged_rows.specs.Paged.{IsFedIfFaithful, IsNamed, IsPaged, IsWarm, paged};
ghost use Rattle.paged_rows.specs.Warms.{HasComeBeside, IsOfPage, IsRefusedTo, LostTo, ReadsUnlessSaved};
ghost use Rattle.paged_rows.specs.declared.wanted.Wanted.TheVariants as want;

use btree_descent::reach::{Way, reach};
use btree_descent::{Path, Rows};
use lean_disk::Part;
use page_provider::{Pager, Refusal};

/// Brings a page that a page of a key's way names into a frame, and answers which: a neighbour, with which a page of the way is to be joined. The pages of
/// that way, which are hot, stay so. A page that cools stays in its frame, a cold one is read from the device, and one that is hot already has its frame.
///
/// The refusals are those of `bring`; PoolFull, Damaged and Altered are of this page.
pub fn bring_beside<R: Rows, P: Part>(
    rows: &mut R,
    seat: &mut R::Seat,
    pager: &mut Pager,
    dev: &mut P,
    worker: u32,
    key: u64,
    page: u32,
) -> Result<u32, Refusal>
    requires fits { R.fits rows.old seat.old }
    requires paged { IsPaged (paged (R.shape rows.old) (R.view seat.old) pager.old) }
    requires area { (P.seat dev.old).area ≡ 1 }
    requires key { key < 2 ^ 64 - 1 }
    requires well { pager.old.broken ≡ false }
    requires named { IsNamed (paged (R.shape rows.old) (R.view seat.old) pager.old) key page }
    requires warm { IsWarm (paged (R.shape rows.old) (R.view seat.old) pager.old) key 0 }
    requires fed { IsFedIfFaithful (paged (R.shape rows.old) (R.view seat.old) pager.old) (P.story dev.old) }
    ensures fits { R.fits rows.new seat.new × (R.shape rows.new ≡ R.shape rows.old) }
    ensures paged { IsPaged (paged (R.shape rows.new) (R.view seat.new) pager.new) }
    ensures ok { IfOk result (λ frame. HasComeBeside key page frame (paged (R.shape rows.old) (R.view seat.old) pager.old) (paged (R.shape rows.new) (R.view seat.new) pager.new)) }
    ensures err { IfErr result (λ why. IsRefusedTo key (want.Beside page) (paged (R.shape rows.old) (R.view seat.old) pager.old) why (paged (R.shape rows.new) (R.view seat.new) pager.new)) }
    ensures lost { IfErr result (LostTo (paged (R.shape rows.old) (R.view seat.old) pager.old) (P.story dev.old)) }
    ensures which { IfErr result (IsOfPage page) }
    ensures fed { pager.new.broken ≡ false → IsFedIfFaithful (paged (R.shape rows.new) (R.view seat.new) pager.new) (P.story dev.new) }
    ensures frame { Framed 1 (P.story dev.old) (P.story dev.new) }
    ensures within { KeepsWithin (P.story dev.old) (P.story dev.new) }
    ensures reads { ReadsUnlessSaved (paged (R.shape rows.old) (R.view seat.old) pager.old) (paged (R.shape rows.new) (R.view seat.new) pager.new) (P.story dev.old) (P.story dev.new) }
    ensures disk { Disked (R.shape rows.old).alone pager.old (R.view seat.old) pager.new (R.view seat.new) (P.story dev.old) (P.story dev.new) }
    ensures seat { P.seat dev.new ≡ P.seat dev.old }

    ensures cause_disk_fault { HasCause (P.faults dev.old) (P.faults dev.new) (result ≡ Err refusal.DiskFault) }
{
    core_calls::every_warm();
    page_provider::every_mirrored_gives(dev);
    page_provider::every_disk_rest(dev);
    page_provider::every_disk_sequel::<P>();
    page_provider::every_area_rest(dev);
    page_provider::every_area_sequel::<P>();
    page_provider::every_unsaved::<P>();
    page_provider::every_descent();
    page_provider::every_sequel();
    let _pages = pager.pages();
    let frames = pager.frames();
    let mut path = Path::new();
    match reach(rows, seat, worker, frames, key, &mut path) {
        Way::Leaf { .. } => pager.frame_for(rows, seat, dev, page, &path),
        // The key's way is hot, and nobody else steps.
        Way::Cold(_) => unreachable!(),
        Way::Moved(_) | Way::Latched(_) => unreachable!(),
    }
}
