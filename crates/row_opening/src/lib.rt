//! Rows that begin as an opening gives them: plain rows in which each page, also a free one, stands in the frame of its
//! own number, plain rows of which the root alone is in a frame, and the laws of the core at each moment of such rows.
//! Read specs/Opened.antt and specs/Rooted.antt, what the rows begin with, and specs/Openings.antt, the laws.
#![tactic(auto)]

mod faith;
mod frame;
mod worker;

ghost use Rattle.std.specs.Prelude.{◌≡◌, ◌+◌, ◌<◌, ◌≤◌, ◌^◌, length, IfOk};
ghost use Rattle.rows_trait.specs.Plain.{sizes, IsOpening};
ghost use Rattle.rows_trait.specs.Rule.{IsPicture, plan};
ghost use Rattle.rows_trait.specs.Views.{first_plain};
ghost use Rattle.row_opening.specs.Opened.{ArePages, given_of, IsOpened};
ghost use Rattle.row_opening.specs.Rooted.{rooted_of, IsRooted};
ghost use Rattle.row_opening.specs.Openings.{EveryNeed, EveryOpened, EveryReached};

pub use faith::Faith;
use frame::{set_frames, set_root};
use rows_trait::Node;
use rows_trait::plain::PlainRows;
use rows_trait::trace::{Trace, Which};
use std::alloc::{AllocError, Global};
use std::marker::Brand;
use worker::set_workers;

/// Plain rows in which each page, also a free one, stands in the frame of its own number, and their seat. The frames behind the last
/// page are empty. There are `locks` lock rows, and numbers are drawn above `base`. The one error is that memory is refused.
pub fn open_rows(
    alloc: Global,
    pages: &[Node],
    frames: u32,
    locks: u32,
    workers: u32,
    base: u64,
) -> Result<(PlainRows, Trace), AllocError>
    requires pages { ArePages pages.now base }
    requires frames { length pages.now ≤ frames }
    requires workers { 1 ≤ workers }
    requires few { frames + locks + workers < 2 ^ 32 }
    ensures sizes { IfOk result (λ r. (r.0.frames ≡ frames) × (r.0.locks ≡ locks) × (r.0.workers ≡ workers)) }
    ensures view { IfOk result (λ r. r.1.view ≡ first_plain (given_of frames locks workers base pages.now)) }
    ensures picture { IfOk result (λ r. IsPicture (plan (sizes r.0.frames r.0.locks r.0.workers) r.1.view.given) r.0.words.items r.1.view) }
    ensures opened { IsOpened pages.now (given_of frames locks workers base pages.now) }
{
    let mut rows = PlainRows::new(alloc, frames, locks, workers)?;
    set_frames(&mut rows.words, 2 + 4 * workers as usize, frames, pages);
    set_workers(&mut rows.words, workers, base);
    let seat = seat_of::<Brand>(&rows, pages, base);
    Ok((rows, seat))
}

/// Plain rows of which page 0, the root, alone is in a frame, the first, and their seat. The other frames are empty, so
/// there may be more pages than frames. There are `locks` lock rows, and numbers are drawn above `base`; `F` says for the proof
/// alone whether a page that is read again is as it was saved. The one error is that memory is refused.
pub fn open_root<F: Faith>(
    alloc: Global,
    pages: &[Node],
    frames: u32,
    locks: u32,
    workers: u32,
    base: u64,
) -> Result<(PlainRows, Trace), AllocError>
    requires pages { ArePages pages.now base }
    requires some { 1 ≤ frames }
    requires workers { 1 ≤ workers }
    requires few { frames + locks + workers < 2 ^ 32 }
    ensures sizes { IfOk result (λ r. (r.0.frames ≡ frames) × (r.0.locks ≡ locks) × (r.0.workers ≡ workers)) }
    ensures view { IfOk result (λ r. r.1.view ≡ first_plain (rooted_of F.faithful frames locks workers base pages.now)) }
    ensures picture { IfOk result (λ r. IsPicture (plan (sizes r.0.frames r.0.locks r.0.workers) r.1.view.given) r.0.words.items r.1.view) }
    ensures opened { IsRooted pages.now (rooted_of F.faithful frames locks workers base pages.now) }
{
    let mut rows = PlainRows::new(alloc, frames, locks, workers)?;
    set_root(&mut rows.words, 2 + 4 * workers as usize, frames, &pages[0]);
    set_workers(&mut rows.words, workers, base);
    let seat = seat_of::<Brand>(&rows, pages, base);
    Ok((rows, seat))
}

// The seat of rows whose words are those of the pages. Pages and base number stand here for the proof alone.
fn seat_of<K: Which>(rows: &PlainRows, pages: &[Node], base: u64) -> Trace
    requires words { IsOpening (sizes rows.now.frames rows.now.locks rows.now.workers) K.which.given rows.now.words.items }
    requires first { K.which ≡ first_plain K.which.given }
    ensures seat { result.view ≡ K.which }
    ensures picture { IsPicture (plan (sizes rows.now.frames rows.now.locks rows.now.workers) result.view.given) rows.now.words.items result.view }
{
    rows.begin::<K>()
}

/// After every list of events the pages are a tree, and where pages stand in frames is in order: one page a frame, the root hot,
/// the parent of a hot page hot; each page's last log is below 256, where there are fewer than 256 workers; whoever holds a lock row
/// is a worker, and a row that is held alone has no readers; the worker holds alone the row of each key whose change it has still to
/// put back, and where the rows began faithful the key has an entry in its leaf.
pub fn every_opened()
    ensures { EveryOpened }
{}

/// The state that rows come to is the core's own after the same events, those before the rows began first. So each law of the core
/// over every list of events is one of rows.
pub fn every_reached()
    ensures { EveryReached }
{}

/// Whether an event may happen is the same to an opening that gives what rows begin with and to the rows: it hangs on sizes alone.
pub fn every_need()
    ensures { EveryNeed }
{}
