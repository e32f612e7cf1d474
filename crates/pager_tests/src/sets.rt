// Sets against a plain list of marks.
use free_pages::FreePages;
use std::alloc::{AllocError, Global};
use std::process::Abort;
use std::test::Fail;

// A number for each call, by a linear congruence.
fn next(state: u64) -> u64 {
    state
        .wrapping_mul(6364136223846793005)
        .wrapping_add(1442695040888963407)
}

// The set answers as the marks do, which are looked at one by one.
fn is_as(set: &FreePages, marks: &[bool], page: u32) -> bool {
    let least = marks.iter().position(|&mark| mark);
    let count = marks.iter().filter(|mark| **mark).count();
    if set.pages() as usize != marks.len() || set.len() as usize != count {
        return false;
    }
    if set.least().map(|page| page as usize) != least {
        return false;
    }
    page >= set.pages() || marks.get(page as usize) == Some(&set.contains(page))
}

// A page is put into both, or taken out of both.
fn mark(set: &mut FreePages, marks: &mut [bool], page: u32, is_in: bool) {
    if page >= set.pages() || page as usize >= marks.len() {
        return;
    }
    marks[page as usize] = is_in;
    if is_in {
        set.insert(page);
    } else {
        set.remove(page);
    }
}

// How many of so many calls were answered as by the marks. Half of them are about the first 300 pages, and some take the least one out.
fn calls(alloc: Global, pages: u32, seed: u64, times: u32) -> Result<u32, AllocError> {
    let mut set = FreePages::new(alloc, pages)?;
    let mut marks = Vec::new(alloc);
    marks.resize(pages as usize, false)?;
    let mut state = seed;
    for i in 0..times {
        state = next(state);
        let span = if state & 1 << 20 == 0 {
            pages
        } else {
            pages.min(300)
        };
        let page = (state >> 33) as u32 % span.max(1);
        match (state >> 24) % 8 {
            0..=3 => mark(&mut set, &mut marks, page, true),
            4..=5 => mark(&mut set, &mut marks, page, false),
            _ => {
                if let Some(least) = set.least() {
                    mark(&mut set, &mut marks, least, false);
                }
            }
        }
        if !is_as(&set, &marks, page) {
            return Ok(i);
        }
    }
    Ok(times)
}

// How many pages were put in from the last one down, each the least then, and taken out again as the least.
fn fills(alloc: Global, pages: u32) -> Result<(u32, u32), AllocError> {
    let mut set = FreePages::new(alloc, pages)?;
    let mut put = 0;
    for i in 0..pages {
        let page = pages - 1 - i;
        if page >= set.pages() || set.contains(page) {
            break;
        }
        set.insert(page);
        if set.least() != Some(page) || set.len() != i + 1 {
            break;
        }
        put = i + 1;
    }
    let mut taken = 0;
    for page in 0..pages {
        if set.least() != Some(page) || page >= set.pages() {
            break;
        }
        set.remove(page);
        taken = page + 1;
    }
    Ok((put, taken))
}

#[test]
fn random_calls_are_answered_as_by_marks(rt: HostRuntime) -> Result<(), Fail> {
    for (pages, seed, times) in [
        (0, 1, 20),
        (1, 2, 40),
        (2, 3, 100),
        (255, 4, 400),
        (256, 5, 400),
        (257, 6, 400),
        (513, 7, 400),
        (65536, 8, 400),
    ] {
        let right = calls(rt.alloc(), pages, seed, times)?;
        assert_eq!(rt; right, times, "at {pages} pages");
    }
    Ok(())
}

#[test]
fn every_page_comes_in_and_goes_out(rt: HostRuntime) -> Result<(), Fail> {
    for pages in [0, 1, 256, 257, 65536] {
        let (put, taken) = fills(rt.alloc(), pages)?;
        assert_eq!(rt; put, pages, "at {pages} pages");
        assert_eq!(rt; taken, pages, "at {pages} pages");
    }
    Ok(())
}
