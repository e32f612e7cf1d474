// What memory keeps of the pages that are in no frame as the rows begin.
ghost use Rattle.std.specs.Prelude.{◌≡◌, ◌<◌, ◌^◌, ℕ, length, IfOk};
ghost use Rattle.cold_pages.specs.Kept.{AreWithin};
ghost use Rattle.session_state.specs.row_opening.Opened.{page_at};
ghost use Rattle.paged_opening.specs.Opened.{cold_of};

use cold_pages::ColdPages;
use session_state::Node;
use std::alloc::{AllocError, Global};

/// What is kept of each page but page 0, which stands in a frame. The one error is that memory is refused.
pub(crate) fn cold_pages_of(alloc: Global, pages: &[Node]) -> Result<ColdPages, AllocError>
    requires few { length pages.now < 2 ^ 32 }
    requires within { (p : ℕ) → p < length pages.now → AreWithin (length pages.now) (page_at pages.now p).node }
    ensures { IfOk result (λ kept. kept ≡ cold_of pages.now) }
{
    let mut kept = ColdPages::new(alloc, pages.len() as u32)?;
    for page in 1..pages.len() {
        kept.leave(page as u32, &pages[page]);
    }
    Ok(kept)
}
