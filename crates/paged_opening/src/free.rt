// The pages that are free as the rows begin.
ghost use Rattle.std.specs.Prelude.{◌≡◌, ◌<◌, ◌^◌, length, IfOk};
ghost use Rattle.paged_opening.specs.Opened.{free_of};

use free_pages::FreePages;
use session_state::Node;
use std::alloc::{AllocError, Global};

/// The pages that are not live. The one error is that memory is refused.
pub(crate) fn free_pages_of(alloc: Global, pages: &[Node]) -> Result<FreePages, AllocError>
    requires few { length pages.now < 2 ^ 32 }
    ensures { IfOk result (λ free. free ≡ free_of pages.now) }
{
    let mut free = FreePages::new(alloc, pages.len() as u32)?;
    for page in 0..pages.len() {
        if !pages[page].is_live() {
            free.insert(page as u32);
        }
    }
    Ok(free)
}
