// The pages and the least page that breaks the rule were written down by hand.
use crate::cases::expect;
use buffered_engine::Node;
use node_tree::{first_break, is_leaf_with, leaf_of};
use page_model::every_check;
use std::alloc::{AllocError, Global};

const TOP: u64 = u64::MAX;

const TOMBSTONE: u64 = 9223372036854775808;

const LIVE: u64 = 1 << 24;

const FREE: u64 = 2 << 24;

const LEVEL: u64 = 1 << 8;

// A page: its packed word, its fences, and its keys and words in turn. Its other words are 0.
#[derive(Drop)]
struct Page(u64, u64, u64, [u64; 4]);

// The node that it spells.
fn node_of(page: &Page) -> Option<Node> {
    let Page(packed, low, high, pairs) = page;
    let mut words = [0; 126];
    words[3] = *packed;
    words[4] = *low;
    words[5] = *high;
    words[6..10].copy_from_slice(pairs);
    Node::from_words(words)
}

// A root over the pages 1 and 2, and a page that no node names.
static PAGES: [Page; 4] = [
    Page(2 + LEVEL + LIVE, 0, TOP, [0, 1, 10, 2]),
    Page(1 + LIVE, 0, 10, [4, TOMBSTONE, 0, 0]),
    Page(LIVE, 10, TOP, [0; 4]),
    Page(FREE, 0, 0, [0; 4]),
];

// What is broken, if anything, the pages that stand in the place of some, and the least page that breaks the rule.
struct Case {
    name: &'static str,
    instead: &'static [(usize, Page)],
    least: Option<usize>,
}

static CASES: [Case; 22] = [
    Case {
        name: "a tree",
        instead: &[],
        least: None,
    },
    Case {
        name: "the root is free",
        instead: &[(0, Page(FREE, 0, 0, [0; 4]))],
        least: Some(0),
    },
    Case {
        name: "the root has not all keys above",
        instead: &[(0, Page(2 + LEVEL + LIVE, 0, TOP - 1, [0, 1, 10, 2]))],
        least: Some(0),
    },
    Case {
        name: "the root has not all keys below",
        instead: &[(0, Page(1 + LEVEL + LIVE, 10, TOP, [10, 2, 0, 0]))],
        least: Some(0),
    },
    Case {
        name: "a child is two levels below",
        instead: &[(0, Page(2 + 2 * LEVEL + LIVE, 0, TOP, [0, 1, 10, 2]))],
        least: Some(0),
    },
    Case {
        name: "a child begins before its fence",
        instead: &[(0, Page(2 + LEVEL + LIVE, 0, TOP, [0, 1, 11, 2]))],
        least: Some(0),
    },
    Case {
        name: "a child twice",
        instead: &[(0, Page(2 + LEVEL + LIVE, 0, TOP, [0, 1, 10, 1]))],
        least: Some(0),
    },
    Case {
        name: "a free child",
        instead: &[(0, Page(2 + LEVEL + LIVE, 0, TOP, [0, 1, 10, 3]))],
        least: Some(0),
    },
    Case {
        name: "a child that ends before its fence",
        instead: &[(0, Page(1 + LEVEL + LIVE, 0, TOP, [0, 1, 0, 0]))],
        least: Some(0),
    },
    Case {
        name: "the root is a child",
        instead: &[(0, Page(2 + LEVEL + LIVE, 0, TOP, [0, 1, 10, 0]))],
        least: Some(0),
    },
    Case {
        name: "the child 4 of pages up to 3",
        instead: &[(0, Page(2 + LEVEL + LIVE, 0, TOP, [0, 1, 10, 4]))],
        least: Some(0),
    },
    Case {
        name: "the child 5 of pages up to 3",
        instead: &[(0, Page(2 + LEVEL + LIVE, 0, TOP, [0, 1, 10, 5]))],
        least: Some(0),
    },
    Case {
        name: "a tombstone for a child",
        instead: &[(0, Page(2 + LEVEL + LIVE, 0, TOP, [0, 1, 10, TOMBSTONE]))],
        least: Some(0),
    },
    Case {
        name: "the greatest word for a child",
        instead: &[(0, Page(2 + LEVEL + LIVE, 0, TOP, [0, 1, 10, TOP]))],
        least: Some(0),
    },
    Case {
        name: "a leaf with a word that is no value",
        instead: &[(1, Page(1 + LIVE, 0, 10, [4, TOMBSTONE + 1, 0, 0]))],
        least: Some(1),
    },
    Case {
        name: "outside the tree is a leaf with no keys",
        instead: &[(3, Page(LIVE, 7, 5, [0; 4]))],
        least: Some(3),
    },
    Case {
        name: "outside the tree is a leaf",
        instead: &[(3, Page(LIVE, 10, TOP, [0; 4]))],
        least: Some(3),
    },
    Case {
        name: "a free page with a lower fence",
        instead: &[(3, Page(FREE, 7, 0, [0; 4]))],
        least: Some(3),
    },
    Case {
        name: "a free page with an upper fence",
        instead: &[(3, Page(FREE, 0, 7, [0; 4]))],
        least: Some(3),
    },
    Case {
        name: "a free page with a level",
        instead: &[(3, Page(LEVEL + FREE, 0, 0, [0; 4]))],
        least: Some(3),
    },
    Case {
        name: "a free page with a pair",
        instead: &[(3, Page(1 + FREE, 0, 7, [4, 1, 0, 0]))],
        least: Some(3),
    },
    Case {
        name: "the least of several is named",
        instead: &[
            (3, Page(LIVE, 0, 10, [0; 4])),
            (2, Page(LIVE, 12, 11, [0; 4])),
            (0, Page(1 + LIVE, 0, TOP, [4, 1, 0, 0])),
        ],
        least: Some(1),
    },
];

// The keys, and the pages of their leaves.
static LEAVES: [(u64, usize); 4] = [(0, 1), (9, 1), (10, 2), (TOP - 1, 2)];

// Whether a page is a leaf that has a key between its fences.
static HOLDS: [(usize, u64, bool); 5] = [
    (1, 9, true),
    (1, 10, false),
    (0, 9, false),
    (3, 0, false),
    (4, 9, false),
];

// The page of a key's leaf, where the pages are a tree.
fn leaf_in(alloc: Global, pages: &[Node], key: u64) -> Option<usize> {
    every_check();
    if pages.is_empty() || key == TOP {
        return None;
    }
    match first_break(alloc, pages) {
        Ok(None) => Some(leaf_of(pages, key)),
        _ => None,
    }
}

fn leads_to_leaves(alloc: Global, pages: &[Node]) -> bool {
    for (key, page) in &LEAVES {
        if leaf_in(alloc, pages, *key) != Some(*page) {
            return false;
        }
    }
    for (page, key, holds) in &HOLDS {
        if is_leaf_with(pages, *page, *key) != *holds {
            return false;
        }
    }
    true
}

// The page that stands in a place, if others stand in the place of some.
fn page_in<'a>(instead: &'a [(usize, Page)], place: usize, page: &'a Page) -> &'a Page {
    for (at, other) in instead {
        if *at == place {
            return other;
        }
    }
    page
}

// The nodes of the tree, with these pages in the place of some; none of a page that spells none.
fn nodes_with(alloc: Global, instead: &[(usize, Page)]) -> Result<Vec<Node>, AllocError> {
    let mut nodes = Vec::new(alloc);
    for (place, page) in PAGES.iter().enumerate() {
        if let Some(node) = node_of(page_in(instead, place, page)) {
            nodes.push(node)?;
        }
    }
    Ok(nodes)
}

fn is_least(alloc: Global, case: &Case) -> Result<bool, AllocError> {
    let nodes = nodes_with(alloc, case.instead)?;
    Ok(nodes.len() == PAGES.len() && first_break(alloc, &nodes)? == case.least)
}

fn has_leaves(alloc: Global) -> Result<bool, AllocError> {
    Ok(leads_to_leaves(alloc, &nodes_with(alloc, &[])?))
}

fn no_pages_break_nothing(alloc: Global) -> Result<bool, AllocError> {
    Ok(first_break(alloc, &[])?.is_none())
}

#[test]
fn a_tree_keeps_the_rule_and_leads_to_each_leaf(rt: HostRuntime) {
    let alloc = rt.alloc();
    for case in &CASES {
        expect(&rt, case.name, is_least(alloc, case));
    }
    expect(&rt, "the leaves", has_leaves(alloc));
    expect(&rt, "no pages", no_pages_break_nothing(alloc));
}
