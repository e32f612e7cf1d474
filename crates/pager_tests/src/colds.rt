// What is kept of pages against a plain list, and loaded pages compared with it.
use btree_node::{Node, are_ordered};
use cold_pages::{ColdPages, Kept};
use std::alloc::{AllocError, Global};
use std::process::Abort;
use std::test::Fail;

fn kept(
    gsn: u64,
    last: u8,
    level: Option<u8>,
    low: u64,
    high: u64,
    count: u8,
    parent: Option<u32>,
) -> Kept {
    Kept {
        gsn,
        last,
        level,
        low,
        high,
        count,
        parent,
    }
}

// Whether the table is the list.
fn is_list(table: &ColdPages, list: &[Kept]) -> bool {
    let mut page = 0;
    for kept in list {
        if page >= table.pages() || table.get(page) != *kept {
            return false;
        }
        page += 1;
    }
    page == table.pages()
}

// Writes an entry, where the page is in the table, and its level and parent can be kept.
fn note(table: &mut ColdPages, page: u32, kept: Kept) -> bool {
    if let Some(parent) = kept.parent {
        if parent == 0xffff_ffff {
            return false;
        }
    }
    if let Some(level) = kept.level {
        if level == 0xff {
            return false;
        }
    }
    if page >= table.pages() {
        return false;
    }
    table.note(page, kept);
    true
}

// How many of so many entries, by a linear congruence, leave the table as the list. About one of four has no parent, and one of four
// no level.
fn agreed(alloc: Global, pages: u32, times: u32) -> Result<u32, AllocError> {
    let mut table = ColdPages::new(alloc, pages)?;
    let mut list = Vec::new(alloc);
    list.resize(pages as usize, kept(0, 0, None, 0, 0, 0, None))?;
    let mut state: u64 = 1;
    for done in 0..times {
        state = state
            .wrapping_mul(6364136223846793005)
            .wrapping_add(1442695040888963407);
        let page = (state >> 33) as u32 % pages.max(1);
        let parent = if state & 3 << 20 == 0 {
            None
        } else {
            Some((state >> 40) as u32 % pages.max(1))
        };
        let level = if state & 3 << 22 == 0 {
            None
        } else {
            Some((state >> 45 & 7) as u8)
        };
        let entry = kept(
            state,
            (state >> 56) as u8,
            level,
            !state,
            state ^ 1,
            (state >> 48 & 255) as u8,
            parent,
        );
        if page as usize >= list.len() || !note(&mut table, page, entry) {
            return Ok(done);
        }
        list[page as usize] = entry;
        if !is_list(&table, &list) {
            return Ok(done);
        }
    }
    Ok(times)
}

// Page 3, at level 1 from 10 up to 40, names 5, 6 and 7, as kept; 8 is another node's child from 20 on; 9 is free.
fn table(alloc: Global) -> Result<ColdPages, AllocError> {
    let mut table = ColdPages::new(alloc, 10)?;
    for (page, entry) in [
        (3, kept(9, 2, Some(1), 10, 40, 3, Some(1))),
        (5, kept(4, 1, Some(0), 10, 40, 0, Some(3))),
        (6, kept(5, 1, Some(0), 20, 40, 0, Some(3))),
        (7, kept(6, 1, Some(0), 30, 40, 0, Some(3))),
        (8, kept(7, 1, Some(0), 20, 40, 0, Some(4))),
        (9, kept(8, 3, None, 0, 0, 0, None)),
    ] {
        note(&mut table, page, entry);
    }
    Ok(table)
}

// A loaded page with these numbers: a node with the first words of these pairs, in which one word is another.
fn loaded(
    level: u8,
    low: u64,
    high: u64,
    gsn: u64,
    log: u32,
    at: usize,
    word: u64,
    words: usize,
) -> Option<Node> {
    let mut pairs: [u64; 6] = [10, 5, 20, 6, 30, 7];
    if at >= 6 || words > 6 || words % 2 != 0 || level > 7 || log > 255 {
        return None;
    }
    pairs[at] = word;
    let pairs = &pairs[..words];
    if !are_ordered(low, high, pairs) {
        return None;
    }
    let mut node = Node::empty_leaf(0, low, high);
    node.fill(level, low, high, pairs);
    node.set_gsn(gsn);
    node.set_last_log(log);
    Some(node)
}

#[test]
fn random_entries_stand_as_in_a_list(rt: HostRuntime) -> Result<(), Fail> {
    for (pages, times) in [(1, 40), (2, 100), (40, 400), (300, 200)] {
        let right = agreed(rt.alloc(), pages, times)?;
        assert_eq!(rt; right, times, "at {pages} pages");
    }
    Ok(())
}

#[test]
fn a_page_passes_as_it_was_kept_alone(rt: HostRuntime) -> Result<(), Fail> {
    let table = table(rt.alloc())?;
    for (page, level, low, high, gsn, log, at, word, words, right) in [
        // as it was kept; a leaf with other entries; with none
        (3, 1, 10, 40, 9, 2, 0, 10, 6, true),
        (6, 0, 20, 40, 5, 1, 0, 20, 0, true),
        (5, 0, 10, 40, 4, 1, 5, 77, 6, true),
        // another number, log, level, low and high fence
        (3, 1, 10, 40, 8, 2, 0, 10, 6, false),
        (3, 1, 10, 40, 9, 1, 0, 10, 6, false),
        (3, 2, 10, 40, 9, 2, 0, 10, 6, false),
        (3, 0, 10, 40, 9, 2, 0, 10, 6, false),
        (3, 1, 9, 40, 9, 2, 0, 10, 6, false),
        (3, 1, 10, 41, 9, 2, 0, 10, 6, false),
        // a pair less; another key; another node's child; a child that is free; one twice; one that is no page
        (3, 1, 10, 40, 9, 2, 0, 10, 4, false),
        (3, 1, 10, 40, 9, 2, 4, 31, 6, false),
        (3, 1, 10, 40, 9, 2, 3, 8, 6, false),
        (3, 1, 10, 40, 9, 2, 3, 9, 6, false),
        (3, 1, 10, 40, 9, 2, 3, 5, 6, false),
        (3, 1, 10, 40, 9, 2, 3, 4294967302, 6, false),
    ] {
        let passes = match loaded(level, low, high, gsn, log, at, word, words) {
            Some(node) if page < table.pages() => table.is_as_kept(page, &node),
            _ => !right,
        };
        assert_eq!(rt; passes, right, "of page {page} with word {word} at {at}");
    }
    Ok(())
}

#[test]
fn a_free_page_passes_as_it_was_kept_alone(rt: HostRuntime) -> Result<(), Fail> {
    let table = table(rt.alloc())?;
    for (page, gsn, log, low, right) in [
        // as it was kept
        (9, 8, 3, None, true),
        // another number, another log, a leaf, another page
        (9, 7, 3, None, false),
        (9, 8, 2, None, false),
        (9, 8, 3, Some(0), false),
        (8, 8, 3, None, false),
    ] {
        let mut node = match low {
            None => Node::free(9),
            Some(low) => Node::empty_leaf(9, low, low),
        };
        node.set_gsn(gsn);
        node.set_last_log(log);
        let passes = page < table.pages() && table.is_as_kept(page, &node);
        assert_eq!(rt;
            passes,
            right,
            "of page {page} with number {gsn} of log {log}"
        );
    }
    Ok(())
}
