// The words of three openings, written down by hand.
use crate::expect::expect;
use btree_descent::BtreeNodeNode as Node;
use row_opening::open_root;
use row_sessions::opening::are_pages;
use row_sessions::sessions::Sessions;
use std::alloc::Global;
use std::marker::Brand;

/// A word: where it lies, and what it is.
struct Word(usize, u64);

const FRAME: u64 = 1 << 63;

const MARK: u64 = FRAME + 1;

/// The words of a frame row, its latch with them.
const ROW: usize = 129;

// With one worker the first frame row lies behind 6 control words. Of a row word 0 is the latch, the page begins at word 1, and the hint
// is word 127.
static ONE_LEAF: [Word; 14] = [
    // common, and the worker's
    Word(0, 0),
    Word(1, 0),
    Word(2, 5),
    Word(3, 5),
    Word(4, FRAME),
    Word(5, 0),
    // the leaf in frame 0
    Word(6, 0),
    Word(7, 0),
    Word(10, 1 << 24),
    Word(12, u64::MAX),
    Word(6 + 127, FRAME),
    Word(6 + 128, 0),
    // frame 1 is empty
    Word(6 + ROW + 127, MARK),
    // the lock row
    Word(6 + 2 * ROW, 0),
];

// With two workers the first frame row lies behind 10 control words.
static TWO_LEAVES: [Word; 24] = [
    // the second worker's
    Word(6, 9),
    Word(7, 9),
    Word(8, FRAME),
    Word(9, 0),
    // the root in frame 0: its number, its last change, and two pairs with frames for words
    Word(10, 0),
    Word(11, 0),
    Word(12, 9),
    Word(17, 0),
    Word(18, FRAME + 1),
    Word(19, 10),
    Word(20, FRAME + 3),
    Word(10 + 127, FRAME),
    Word(10 + 128, 9),
    // the leaf in frame 1, with one entry, whose word stays a value
    Word(10 + ROW + 1, 1),
    Word(10 + ROW + 8, 7),
    Word(10 + ROW + 128, 4),
    // the free page in frame 2: its number, its kind, no parent, and no change
    Word(10 + 2 * ROW + 1, 2),
    Word(10 + 2 * ROW + 4, 2 << 24),
    Word(10 + 2 * ROW + 127, FRAME),
    Word(10 + 2 * ROW + 128, 0),
    // the leaf in frame 3
    Word(10 + 3 * ROW + 1, 3),
    Word(10 + 3 * ROW + 127, FRAME),
    // no pages for frames 4 and 5
    Word(10 + 4 * ROW + 127, MARK),
    Word(10 + 5 * ROW + 127, MARK),
];

// The same pages over two frames, of which the root alone has one.
static ROOT_ALONE: [Word; 34] = [
    // common, and the workers'
    Word(0, 0),
    Word(1, 0),
    Word(2, 9),
    Word(3, 9),
    Word(4, FRAME),
    Word(5, 0),
    Word(6, 9),
    Word(7, 9),
    Word(8, FRAME),
    Word(9, 0),
    // the root in frame 0: its number, its last change, its kind, and two pairs with pages for words
    Word(10, 0),
    Word(11, 0),
    Word(12, 9),
    Word(13, 0),
    Word(14, 2 + (1 << 8) + (1 << 16) + (1 << 24)),
    Word(15, 0),
    Word(16, u64::MAX),
    Word(17, 0),
    Word(18, 1),
    Word(19, 10),
    Word(20, 3),
    Word(21, 0),
    Word(10 + 127, FRAME),
    Word(10 + 128, 9),
    // frame 1 is empty, though there are pages
    Word(10 + ROW, 0),
    Word(10 + ROW + 1, 0),
    Word(10 + ROW + 127, MARK),
    Word(10 + ROW + 128, 0),
    // the lock row
    Word(10 + 2 * ROW, 0),
    Word(10 + 2 * ROW + 1, 0),
    Word(10 + 2 * ROW + 2, 0),
    Word(10 + 2 * ROW + 3, 0),
    Word(10 + 2 * ROW + 4, 0),
    Word(10 + 2 * ROW + 5, 0),
];

// Page 0: level 1, all keys, its last change by log 1, and two pairs.
static ROOT: [Word; 6] = [
    Word(1, 9),
    Word(3, 2 + (1 << 8) + (1 << 16) + (1 << 24)),
    Word(5, u64::MAX),
    Word(7, 1),
    Word(8, 10),
    Word(9, 3),
];

// Page 1: the keys below 10, its last change by log 2, and one entry.
static LEFT_LEAF: [Word; 6] = [
    Word(0, 1),
    Word(1, 4),
    Word(3, 1 + (2 << 16) + (1 << 24)),
    Word(5, 10),
    Word(6, 5),
    Word(7, 7),
];

fn node(words: &[Word]) -> Option<Node> {
    let mut spelled = [0; 126];
    for Word(at, value) in words {
        if let Some(word) = spelled.get_mut(*at) {
            *word = *value;
        }
    }
    Node::from_words(spelled)
}

fn are_there(words: &[u64], expected: &[Word]) -> bool {
    for Word(at, value) in expected {
        if words.get(*at) != Some(value) {
            return false;
        }
    }
    true
}

// Whether so many frames and workers over these pages, with one lock row and from this number on, have these words.
fn has_words(
    alloc: Global,
    pages: &[Node],
    frames: u32,
    workers: u32,
    number: u64,
    expected: &[Word],
) -> bool {
    match Sessions::open(alloc, pages, frames, 1, workers, number) {
        Ok(sessions) => are_there(sessions.words(), expected),
        Err(_) => false,
    }
}

fn is_one_leaf(alloc: Global) -> bool {
    let pages = [Node::empty_leaf(0, 0, u64::MAX)];
    has_words(alloc, &pages, 2, 1, 5, &ONE_LEAF)
}

fn is_root_over_leaves(alloc: Global) -> bool {
    let (Some(root), Some(left)) = (node(&ROOT), node(&LEFT_LEAF)) else {
        return false;
    };
    let pages = [root, left, Node::free(2), Node::empty_leaf(3, 10, u64::MAX)];
    has_words(alloc, &pages, 6, 2, 9, &TWO_LEAVES)
}

fn is_root_alone(alloc: Global) -> bool {
    let (Some(root), Some(left)) = (node(&ROOT), node(&LEFT_LEAF)) else {
        return false;
    };
    let pages = [root, left, Node::free(2), Node::empty_leaf(3, 10, u64::MAX)];
    let Ok(true) = are_pages(alloc, &pages, 2, 9) else {
        return false;
    };
    match open_root::<Brand>(alloc, &pages, 2, 1, 2, 9) {
        Ok((rows, _)) => are_there(rows.words.as_slice(), &ROOT_ALONE),
        Err(_) => false,
    }
}

#[test]
fn each_opening_has_the_words_that_its_rows_name(rt: HostRuntime) {
    let alloc = rt.alloc();
    expect(
        &rt,
        "an empty tree is one leaf in the first frame",
        is_one_leaf(alloc),
    );
    expect(
        &rt,
        "a root names the frames of its leaves",
        is_root_over_leaves(alloc),
    );
    expect(
        &rt,
        "a root alone in a frame names pages",
        is_root_alone(alloc),
    );
}
