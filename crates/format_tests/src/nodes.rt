// The expected words were counted by hand and by Python.
use btree_node::{Node, Put, are_ordered};

const TOP: u64 = 18446744073709551615;

const TOMBSTONE: u64 = 9223372036854775808;

// What a node is at first.
enum Start {
    Leaf(u32, u64, u64),
    Free(u32),
    /// Sixty entries: the keys 0, 10, 20 and so on, each with its place as its word.
    FullLeaf,
    /// These words at these places, and else zeros.
    Words(&'static [(usize, u64)]),
}

// A change of a node, or what it answers.
enum Step {
    Put(u64, u64, Put),
    Tombstone(u64),
    SetWordAt(usize, u64),
    /// These keys go.
    Purge(&'static [u64]),
    Remove(u64),
    /// A level, the fences, and the words of pairs.
    Fill(u8, u64, u64, &'static [u64]),
    /// The words of pairs, and the high fence.
    Append(&'static [u64], u64),
    CutFrom(u64),
    SetFree,
    SetGsn(u64),
    SetGeneration(u64),
    SetLastLog(u32),
    Find(u64, Option<u64>),
    Covers(u64, bool),
    Route(u64, u64),
    Number(u64),
    Low(u64),
    High(u64),
    Count(usize),
    Level(u8),
    IsLive(bool),
    /// The words of all pairs.
    Pairs(&'static [u64]),
    /// The first words.
    Words(&'static [u64]),
}

// A step of one of two nodes, or of both.
enum Move {
    Left(Step),
    Right(Step),
    /// The right one is a free page of this number first. The key is the separator.
    Split(u32, u64),
    Join,
    /// The left one is the root, and names the right one by this word.
    Lift(u64),
    /// The left one is the root.
    DropRoot,
}

struct Case {
    name: &'static str,
    left: Start,
    right: Start,
    moves: &'static [Move],
}

static CASES: [Case; 11] = [
    Case {
        name: "a page is spelled by its words",
        left: Start::Leaf(5, 0, TOP),
        right: Start::Free(7),
        moves: &[
            Move::Left(Step::Put(9, 11, Put::Done)),
            Move::Left(Step::Put(1, 10, Put::Done)),
            Move::Left(Step::Tombstone(9)),
            Move::Left(Step::SetGsn(77)),
            Move::Left(Step::SetGeneration(3)),
            Move::Left(Step::SetLastLog(2)),
            Move::Left(Step::Words(&[5, 77, 3, 16908290, 0, TOP, 1, 10, 9, TOMBSTONE])),
            Move::Right(Step::Words(&[7, 0, 0, 33554432, 0, 0, 0])),
        ],
    },
    Case {
        name: "a full leaf takes words of its own keys alone",
        left: Start::FullLeaf,
        right: Start::Free(7),
        moves: &[
            Move::Left(Step::Count(60)),
            Move::Left(Step::Find(590, Some(59))),
            Move::Left(Step::Find(0, Some(0))),
            Move::Left(Step::Find(595, None)),
            Move::Left(Step::Put(595, 1, Put::Full)),
            Move::Left(Step::Find(595, None)),
            Move::Left(Step::Put(590, 7, Put::Done)),
            Move::Left(Step::Find(590, Some(7))),
            Move::Left(Step::Covers(595, true)),
            Move::Left(Step::Covers(TOP, false)),
        ],
    },
    Case {
        name: "a full leaf is split in halves",
        left: Start::FullLeaf,
        right: Start::Free(7),
        moves: &[
            Move::Split(7, 300),
            Move::Left(Step::Count(30)),
            Move::Left(Step::High(300)),
            Move::Right(Step::Low(300)),
            Move::Right(Step::Find(300, Some(30))),
            Move::Right(Step::Number(7)),
        ],
    },
    Case {
        name: "a leaf gains the entries of its right neighbour",
        left: Start::Leaf(5, 0, 100),
        right: Start::Leaf(7, 100, TOP),
        moves: &[
            Move::Right(Step::Put(130, 4, Put::Done)),
            Move::Join,
            Move::Left(Step::Find(130, Some(4))),
            Move::Left(Step::High(TOP)),
            Move::Right(Step::IsLive(false)),
            Move::Right(Step::Count(0)),
            Move::Right(Step::Number(7)),
        ],
    },
    Case {
        name: "a key goes to the last child that begins up to it",
        left: Start::Words(&[
            (3, 3 + (1 << 8) + (1 << 24)),
            (5, TOP),
            (7, 4),
            (8, 100),
            (9, 9),
            (10, 200),
            (11, 2),
        ]),
        right: Start::Free(7),
        moves: &[
            Move::Left(Step::Route(0, 4)),
            Move::Left(Step::Route(99, 4)),
            Move::Left(Step::Route(100, 9)),
            Move::Left(Step::Route(5000, 2)),
        ],
    },
    Case {
        name: "the entries of some keys go, and the others move together",
        left: Start::Leaf(5, 0, 100),
        right: Start::FullLeaf,
        moves: &[
            Move::Left(Step::Put(10, 1, Put::Done)),
            Move::Left(Step::Put(20, 2, Put::Done)),
            Move::Left(Step::Put(30, 3, Put::Done)),
            Move::Left(Step::Put(40, 4, Put::Done)),
            Move::Left(Step::Put(50, 5, Put::Done)),
            // keys in order, keys out of order, and keys that are not there
            Move::Left(Step::Purge(&[10, 30])),
            Move::Left(Step::Words(&[5, 0, 0, 16777219, 0, 100, 20, 2, 40, 4, 50, 5, 0, 0, 0, 0])),
            Move::Left(Step::Purge(&[])),
            Move::Left(Step::Purge(&[19, 21, 99])),
            Move::Left(Step::Pairs(&[20, 2, 40, 4, 50, 5])),
            Move::Left(Step::Purge(&[50, 60, 20])),
            Move::Left(Step::Words(&[5, 0, 0, 16777217, 0, 100, 40, 4, 0, 0, 0, 0])),
            Move::Left(Step::Remove(39)),
            Move::Left(Step::Pairs(&[40, 4])),
            Move::Left(Step::Remove(40)),
            Move::Left(Step::Pairs(&[])),
            Move::Left(Step::Low(0)),
            Move::Left(Step::High(100)),
            Move::Right(Step::Purge(&[590, 0, 300])),
            Move::Right(Step::Count(57)),
            Move::Right(Step::Find(300, None)),
            Move::Right(Step::Find(310, Some(31))),
            Move::Right(Step::Put(590, 1, Put::Done)),
        ],
    },
    Case {
        name: "a page becomes a node of other pairs, whatever stood there",
        left: Start::FullLeaf,
        right: Start::Free(7),
        moves: &[
            Move::Left(Step::SetGsn(77)),
            Move::Left(Step::SetLastLog(2)),
            Move::Left(Step::Fill(3, 5, 50, &[5, 8, 49, 9])),
            Move::Left(Step::Words(&[0, 77, 0, 16909058, 5, 50, 5, 8, 49, 9, 0, 0, 0, 0])),
            Move::Right(Step::Fill(0, 0, TOP, &[])),
            Move::Right(Step::Words(&[7, 0, 0, 16777216, 0, TOP, 0, 0])),
            Move::Left(Step::SetFree),
            Move::Left(Step::Words(&[0, 77, 0, 33685504, 0, 0, 0, 0, 0, 0])),
        ],
    },
    Case {
        name: "pairs come behind a node's own, or go from a separator on",
        left: Start::Leaf(5, 10, 20),
        right: Start::FullLeaf,
        moves: &[
            Move::Left(Step::Append(&[10, 1, 15, 2], 30)),
            Move::Left(Step::Append(&[20, 3], 21)),
            Move::Left(Step::Words(&[5, 0, 0, 16777219, 10, 21, 10, 1, 15, 2, 20, 3, 0, 0])),
            Move::Left(Step::CutFrom(15)),
            Move::Left(Step::Words(&[5, 0, 0, 16777217, 10, 15, 10, 1, 0, 0, 0, 0])),
            Move::Left(Step::SetWordAt(0, 6)),
            Move::Left(Step::CutFrom(12)),
            Move::Left(Step::Words(&[5, 0, 0, 16777217, 10, 12, 10, 6, 0, 0])),
            Move::Right(Step::CutFrom(0)),
            Move::Right(Step::Words(&[0, 0, 0, 16777216, 0, 0, 0, 0, 0, 0])),
        ],
    },
    Case {
        name: "a root is lifted over a new page",
        left: Start::Words(&[
            (1, 77),
            (3, 2 + (1 << 8) + (1 << 24)),
            (5, TOP),
            (7, 4),
            (8, 100),
            (9, 9),
        ]),
        right: Start::Free(7),
        moves: &[
            Move::Lift(7),
            Move::Left(Step::Words(&[0, 77, 0, 16777729, 0, TOP, 0, 7, 0, 0, 0, 0])),
            Move::Right(Step::Words(&[7, 0, 0, 16777474, 0, TOP, 0, 4, 100, 9, 0, 0])),
            Move::DropRoot,
            Move::Left(Step::Words(&[0, 77, 0, 16777474, 0, TOP, 0, 4, 100, 9, 0, 0])),
            Move::Right(Step::Words(&[7, 0, 0, 33554432, 0, 0, 0, 0, 0, 0])),
        ],
    },
    Case {
        name: "a root that is a leaf is lifted, and dropped",
        left: Start::FullLeaf,
        right: Start::Free(7),
        moves: &[
            Move::Lift(TOMBSTONE + 3),
            Move::Left(Step::Level(1)),
            Move::Left(Step::Pairs(&[0, TOMBSTONE + 3])),
            Move::Right(Step::Level(0)),
            Move::Right(Step::Count(60)),
            Move::Right(Step::Find(590, Some(59))),
            Move::DropRoot,
            Move::Left(Step::Level(0)),
            Move::Left(Step::Count(60)),
            Move::Left(Step::Find(590, Some(59))),
            Move::Right(Step::IsLive(false)),
        ],
    },
    Case {
        name: "words that break no rule are a page",
        left: Start::Words(&[(3, 2 + (1 << 24)), (4, 5), (5, 20), (6, 5), (8, 19)]),
        right: Start::Free(7),
        moves: &[],
    },
];

// One of the words of the last case as another one.
static BREAKS: [(usize, u64); 9] = [
    (3, 61 + (1 << 24)),
    (3, 2 + (8 << 8) + (1 << 24)),
    (3, 2),
    (3, 2 + (3 << 24)),
    (3, 2 + (1 << 24) + (1 << 32)),
    (6, 4),
    (8, 5),
    (8, 20),
    (125, 1),
];

fn set_word(words: &mut [u64; 126], place: usize, word: u64) {
    if place < 126 {
        words[place] = word;
    }
}

fn words_of(set: &[(usize, u64)]) -> [u64; 126] {
    let mut words = [0; 126];
    for (place, word) in set {
        set_word(&mut words, *place, *word);
    }
    words
}

fn full_words() -> [u64; 126] {
    let mut words = words_of(&[(3, 60 + (1 << 24)), (5, TOP)]);
    for i in 0..60usize {
        words[6 + 2 * i] = 10 * i as u64;
        words[7 + 2 * i] = i as u64;
    }
    words
}

fn node_of(start: &Start) -> Option<Node> {
    match start {
        Start::Leaf(number, low, high) => Some(Node::empty_leaf(*number, *low, *high)),
        Start::Free(number) => Some(Node::free(*number)),
        Start::FullLeaf => Node::from_words(full_words()),
        Start::Words(set) => Node::from_words(words_of(set)),
    }
}

fn put_within(node: &mut Node, key: u64, word: u64) -> Option<Put> {
    if node.low() <= key && key < node.high() {
        Some(node.put(key, word))
    } else {
        None
    }
}

fn tombstone_within(node: &mut Node, key: u64) -> bool {
    let is_there = node.find(key).is_some();
    if is_there {
        node.tombstone(key);
    }
    is_there
}

fn set_word_within(node: &mut Node, place: usize, word: u64) -> bool {
    let is_there = place < node.count();
    if is_there {
        node.set_word_at(place, word);
    }
    is_there
}

fn fill_within(node: &mut Node, level: u8, low: u64, high: u64, pairs: &[u64]) -> bool {
    let are_pairs = pairs.len() <= 120 && pairs.len() % 2 == 0;
    if are_pairs && level <= 7 && are_ordered(low, high, pairs) {
        node.fill(level, low, high, pairs);
        return true;
    }
    false
}

fn append_within(node: &mut Node, pairs: &[u64], high: u64) -> bool {
    let count = node.count();
    let are_pairs = pairs.len() <= 120 - 2 * count && pairs.len() % 2 == 0;
    if are_pairs && node.can_append(pairs, high) {
        node.append(pairs, high);
        return true;
    }
    false
}

fn set_log_within(node: &mut Node, log: u32) -> bool {
    if log < 256 {
        node.set_last_log(log);
    }
    log < 256
}

fn route_within(node: &Node, key: u64) -> Option<u64> {
    if node.count() == 0 || node.key_at(0) > key {
        return None;
    }
    Some(node.route(key))
}

fn split_within(left: &mut Node, right: &mut Node, number: u32) -> Option<u64> {
    if left.count() != 60 {
        return None;
    }
    *right = Node::free(number);
    Some(left.split(right))
}

fn join_within(left: &mut Node, right: &mut Node) -> bool {
    let fits = left.count() + right.count() <= 60 && left.high() == right.low();
    if fits && left.low() <= left.high() && right.low() <= right.high() {
        left.join(right);
        return true;
    }
    false
}

fn lift_within(root: &mut Node, child: &mut Node, word: u64) -> bool {
    if root.is_live() && root.level() < 7 && root.low() == 0 && root.high() > 0 {
        root.lift(child, word);
        return true;
    }
    false
}

fn drop_within(root: &mut Node, child: &mut Node) -> bool {
    if root.is_live() && child.low() == root.low() && child.high() == root.high() {
        root.drop_root(child);
        return true;
    }
    false
}

fn answers(node: &Node, step: &Step) -> bool {
    match step {
        Step::Find(key, wanted) => node.find(*key) == *wanted,
        Step::Covers(key, wanted) => node.covers(*key) == *wanted,
        Step::Route(key, wanted) => route_within(node, *key) == Some(*wanted),
        Step::Number(wanted) => node.number() == *wanted,
        Step::Low(wanted) => node.low() == *wanted,
        Step::High(wanted) => node.high() == *wanted,
        Step::Count(wanted) => node.count() == *wanted,
        Step::Level(wanted) => node.level() == *wanted,
        Step::Pairs(wanted) => node.pairs() == *wanted,
        Step::IsLive(wanted) => node.is_live() == *wanted,
        Step::Words(wanted) => node.words().starts_with(wanted),
        _ => false,
    }
}

fn does(node: &mut Node, step: &Step) -> bool {
    match step {
        Step::Put(key, word, wanted) => put_within(node, *key, *word) == Some(*wanted),
        Step::Tombstone(key) => tombstone_within(node, *key),
        Step::SetWordAt(place, word) => set_word_within(node, *place, *word),
        Step::Purge(keys) => {
            node.purge(keys);
            true
        }
        Step::Remove(key) => {
            node.remove(*key);
            true
        }
        Step::Fill(level, low, high, pairs) => fill_within(node, *level, *low, *high, pairs),
        Step::Append(pairs, high) => append_within(node, pairs, *high),
        Step::CutFrom(separator) => {
            node.cut_from(*separator);
            true
        }
        Step::SetFree => {
            node.set_free();
            true
        }
        Step::SetGsn(gsn) => {
            node.set_gsn(*gsn);
            true
        }
        Step::SetGeneration(generation) => {
            node.set_generation(*generation);
            true
        }
        Step::SetLastLog(log) => set_log_within(node, *log),
        _ => answers(node, step),
    }
}

fn goes(left: &mut Node, right: &mut Node, step: &Move) -> bool {
    match step {
        Move::Left(step) => does(left, step),
        Move::Right(step) => does(right, step),
        Move::Split(number, wanted) => split_within(left, right, *number) == Some(*wanted),
        Move::Join => join_within(left, right),
        Move::Lift(word) => lift_within(left, right, *word),
        Move::DropRoot => drop_within(left, right),
    }
}

// There are such nodes, and each move goes as it is told.
fn goes_well(case: &Case) -> bool {
    let Some(mut left) = node_of(&case.left) else {
        return false;
    };
    let Some(mut right) = node_of(&case.right) else {
        return false;
    };
    for step in case.moves {
        if !goes(&mut left, &mut right, step) {
            return false;
        }
    }
    true
}

#[test]
fn nodes_go_as_they_are_told(rt: HostRuntime) {
    for case in &CASES {
        assert!(rt; goes_well(case), "{}", case.name);
    }
}

#[test]
fn words_that_break_a_rule_are_no_page(rt: HostRuntime) {
    let words = words_of(&[(3, 2 + (1 << 24)), (4, 5), (5, 20), (6, 5), (8, 19)]);
    for (place, word) in &BREAKS {
        let mut broken = words;
        set_word(&mut broken, *place, *word);
        assert!(rt;
            Node::from_words(broken).is_none(),
            "word {place} as {word}"
        );
    }
}
