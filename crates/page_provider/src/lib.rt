//! Who moves pages between the disk and the frames of rows: a page is brought in, cools, is saved and leaves.
//! Read specs/Providers.antt, then specs/Steps.antt.
#![tactic(auto)]

mod bringing;
mod calls;
mod cooling;
mod evicting;
mod fetching;
mod finding;
mod glancing;
mod latching;
mod laws;
mod leaving;
mod looking;
mod pager;
mod refusal;
mod room;
mod saving;
mod taking;
mod turning;

ghost use Rattle.page_provider.specs.Amounts.{EveryFew};
ghost use Rattle.page_provider.specs.Descents.{EveryDescent};
ghost use Rattle.page_provider.specs.Faults.{EveryFound};
ghost use Rattle.page_provider.specs.Fetches.{EveryGivenKept};
ghost use Rattle.page_provider.specs.Fresh.{EveryFree, EveryFresh};
ghost use Rattle.page_provider.specs.Gives.{EveryGiven};
ghost use Rattle.page_provider.specs.Sequels.{EveryAreaRest, EveryAreaSequel, EveryDiskRest, EveryDiskSequel, EverySequel, EveryUnsaved};
ghost use Rattle.page_provider.specs.Mirrored.{EveryMirroredGives, EveryMirroredRest, EveryMirroredRun};

use lean_disk::{Disk, Part};
pub use pager::Pager;
pub use refusal::Refusal;

/// A fresh pager is one of rows of which page 0 alone is in a frame.
pub fn every_fresh()
    ensures { EveryFresh }
{}

/// Its free pages are those of the core that are not hot.
pub fn every_free()
    ensures { EveryFree }
{}

/// A call has few events but for those by which pages cool, and with each of these there is one hot page less.
pub fn every_few()
    ensures { EveryFew }
{
    btree_descent::every_stood();
}

/// The frames through which a search came are those of a descent, and lead to the page that it met and that is not hot.
pub fn every_descent()
    ensures { EveryDescent }
{}

/// A disk over which a run of the core stands gives each page as it is saved.
pub fn every_given<P: Part>(now: &P)
    ensures { EveryGiven (P.story now.now) }
{
    page_calls::every_held(now);
    row_opening::every_reached();
}

/// What a device gives of a cold page, where that is what is saved, is as it was kept.
pub fn every_given_kept<P: Part>(now: &P)
    ensures { EveryGivenKept (P.story now.now) }
{}

/// Where a run of the core stands over the disk no cold page is Damaged, and none is Altered.
pub fn every_found<D: Disk>()
    ensures { (now : D) → EveryFound (D.story now) }
{
    disk_runs::every_seal();
    row_opening::every_reached();
}

/// Two calls, one behind the other, have done together what each did; and where nobody else steps no page has other contents behind them.
pub fn every_sequel()
    ensures { EverySequel }
{
    laws::laws();
}

/// A disk of which nothing was asked is as it was.
pub fn every_disk_rest<P: Part>(now: &P)
    ensures { EveryDiskRest (P.story now.now) }
{
    laws::laws();
}

/// The disk behind two calls is as the two have made it.
pub fn every_disk_sequel<P: Part>()
    ensures { (old mid new : P) → EveryDiskSequel (P.story old) (P.story mid) (P.story new) }
{
    laws::laws();
}

/// Where nothing was asked of a device, its areas are as they were at every moment, and it was only read.
pub fn every_area_rest<P: Part>(now: &P)
    ensures { EveryAreaRest (P.story now.now) }
{}

/// Two calls, one behind the other, stay within the pages' area, and have only read the device where neither saved a page.
pub fn every_area_sequel<P: Part>()
    ensures { (old mid new : P) → EveryAreaSequel (P.story old) (P.story mid) (P.story new) }
{}

/// A call none of whose events saves a page has only read the device.
pub fn every_unsaved<P: Part>()
    ensures { (old new : P) → EveryUnsaved (P.story old) (P.story new) }
{}

/// Where the slots hold what is saved, and the device tells of them, it gives each page as it is saved.
pub fn every_mirrored_gives<P: Part>(now: &P)
    ensures { EveryMirroredGives (P.story now.now) }
{}

/// The slots hold what is saved where a run of the core stands over the disk.
pub fn every_mirrored_run<P: Part>(now: &P)
    ensures { EveryMirroredRun (P.story now.now) }
{
    page_calls::every_mirrored(now);
    row_opening::every_reached();
}

/// They hold it still behind steps that save no page, where the device is as it was.
pub fn every_mirrored_rest<P: Part>(now: &P)
    ensures { EveryMirroredRest (P.story now.now) }
{}
