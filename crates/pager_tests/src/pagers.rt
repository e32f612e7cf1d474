// A new pager, with as much memory as it wants, and the pages that it gives out.
use cold_pages::ColdPages;
use free_pages::FreePages;
use page_calls::Slots;
use page_provider::{Pager, Refusal};
use std::alloc::{AllocError, Global};
use std::process::Abort;
use std::test::Fail;

// What it answers where so many pages are wanted.
#[derive(Clone, Copy, Debug, PartialEq, Eq)]
enum Answer {
    Page(u32),
    NoPages,
    Other,
}

// A pager of so many frames and pages, of which these are free.
fn pager_with(
    alloc: Global,
    frames: u32,
    pages: u32,
    free: &[u32],
) -> Result<Option<Pager>, AllocError> {
    let mut set = FreePages::new(alloc, pages)?;
    for &page in free {
        if page < set.pages() {
            set.insert(page);
        }
    }
    let mut firm = Vec::new(alloc);
    firm.resize(pages as usize, 0)?;
    let slots = Slots::new(alloc, &firm)?;
    if slots.len() != set.pages() {
        return Ok(None);
    }
    let kept = ColdPages::new(alloc, pages)?;
    Ok(Some(Pager::new(alloc, frames, 1, 1, set, slots, kept)?))
}

fn given(pager: &Pager, wanted: u32) -> Answer {
    match pager.page_for(wanted.max(1)) {
        Ok(page) => Answer::Page(page),
        Err(Refusal::NoPages) => Answer::NoPages,
        Err(_) => Answer::Other,
    }
}

#[test]
fn the_least_of_the_free_pages_is_given_out(rt: HostRuntime) -> Result<(), Fail> {
    for (frames, pages, free, wanted, answer) in [
        (32, 500, &[9, 7, 300][..], 1, Answer::Page(7)),
        (32, 500, &[9, 7, 300], 3, Answer::Page(7)),
        (32, 500, &[9, 7, 300], 4, Answer::NoPages),
        (32, 16, &[], 1, Answer::NoPages),
        (4096, 65536, &[65535], 1, Answer::Page(65535)),
    ] {
        let given = match pager_with(rt.alloc(), frames, pages, free)? {
            Some(pager) => given(&pager, wanted),
            None => Answer::Other,
        };
        assert_eq!(rt; given, answer, "of {pages} pages");
    }
    Ok(())
}
