// The queue against a plain list of pages.
use cooling_stage::CoolingStage;
use std::alloc::{AllocError, Global};
use std::process::Abort;
use std::test::Fail;

// Whether the queue, walked from its head, is the list.
fn is_list(stage: &CoolingStage, list: &[u32]) -> bool {
    let mut next = stage.head();
    for page in list {
        match next {
            Some(cooling) if cooling.page == *page && stage.find(*page) == next => {
                next = stage.behind(*page);
            }
            _ => return false,
        }
    }
    next.is_none() && stage.len() == list.len()
}

// A page that is in the queue is rescued; another is chilled, where the queue is full in place of its head.
fn meet(stage: &mut CoolingStage, list: &mut Vec<u32>, page: u32) -> Result<bool, AllocError> {
    if let Some(cooling) = stage.rescue(page) {
        list.retain(|other| *other != page);
        return Ok(cooling.page == page && cooling.epoch == page as u64);
    }
    if stage.len() >= stage.frames() as usize {
        let Some(first) = stage.head() else {
            return Ok(list.is_empty());
        };
        if list.is_empty() || list.remove(0) != first.page || stage.find(first.page).is_none() {
            return Ok(false);
        }
        stage.take(first.page);
    }
    if stage.find(page).is_none() && stage.len() < stage.frames() as usize {
        stage.chill(page, page, page as u64);
        list.push(page)?;
    }
    Ok(true)
}

// How many of so many calls, on pages by a linear congruence, leave the queue as the list.
fn agreed(alloc: Global, frames: u32, pages: u32, times: u32) -> Result<u32, AllocError> {
    let mut stage = CoolingStage::new(alloc, frames)?;
    let mut list = Vec::new(alloc);
    let mut state: u64 = 1;
    for done in 0..times {
        state = state
            .wrapping_mul(6364136223846793005)
            .wrapping_add(1442695040888963407);
        let page = (state >> 33) as u32 % pages.max(1);
        if !meet(&mut stage, &mut list, page)? || !is_list(&stage, &list) {
            return Ok(done);
        }
    }
    Ok(times)
}

#[test]
fn a_queue_is_the_list_of_its_pages(rt: HostRuntime) -> Result<(), Fail> {
    for (frames, pages, times) in [
        (0, 4, 100),
        (1, 3, 2000),
        (4, 9, 2000),
        (32, 48, 2000),
        (64, 65536, 2000),
        (4096, 65536, 6000),
    ] {
        assert_eq!(rt;
            agreed(rt.alloc(), frames, pages, times)?,
            times,
            "at {frames} frames"
        );
    }
    Ok(())
}
