// Changes of the structure, step by step; and lifts and splits: what each makes of a tree, and what refuses it. A refusal leaves all rows
// as they stood.
ghost use Rattle.std.specs.Prelude.{◌≤◌, IfOk};
ghost use Rattle.row_sessions.specs.Standing.{Stands, workers_of};

use crate::answers::{Call, TOMBSTONE, Told, answer};
use crate::expect::expect;
use btree_descent::{BtreeNodeNode as Node, DEEPEST, Path};
use btree_smo::outcome::Outcome;
use row_sessions::pages::{eight_levels, one_leaf, two_levels};
use row_sessions::sessions::{Sessions, Unopened};
use row_sessions::structure::{Unchanged, Unpurged};
use std::alloc::{AllocError, Global};

/// What came of a change of the structure, or of a purge.
#[derive(Clone, Copy, PartialEq, Eq)]
pub enum Made {
    Done,
    /// The parent in this row is full, or the left page in it has no room for the right one's pairs.
    Full(u32),
    TooTall,
    /// The page in this row is none for the change.
    Stale(u32),
    /// The row was held.
    Latched(u32),
    /// Nothing is purged: so many entries would be left.
    Spared(usize),
    /// The record was not staged.
    Unstaged,
    /// The worker may draw no number.
    Spent,
    /// There is no such frame.
    NoFrame,
    /// What nobody expects.
    Other,
}

/// What worker 1 does, and what comes of it.
#[derive(Clone, Copy)]
pub enum Step {
    Call(Call, Told),
    /// The root, into this frame.
    Lift(u32, Made),
    /// The left page, the right one and the parent.
    Split([u32; 3], Made),
    /// The root's one child.
    Drop(u32, Made),
    /// The left page, the right one and the parent.
    Join([u32; 3], Made),
    /// A leaf's tombstones, where at most so many entries are left.
    Purge(u32, usize, Made),
    /// How many nodes at the end of the path are full.
    Run(&'static [u32], usize),
    /// Sixty keys from this one on, ten apart, have the words 0 to 59.
    Find(u32),
    /// The log takes no more records.
    FillLog,
}

/// What the rows begin with. Leaf `i` of two levels is page `i + 1`, and has keys from `1000 * i` on.
#[derive(Clone, Copy)]
pub enum Tree {
    /// With so many entries, ten apart, and so many free pages.
    OneLeaf {
        entries: u64,
        free: u32,
    },
    /// With so many entries, ten apart, the first of which are tombstones.
    Tombstones {
        entries: u64,
        dead: u64,
    },
    /// With so many leaves, entries in each, and free pages.
    TwoLevels {
        leaves: u32,
        entries: u64,
        free: u32,
    },
    /// With a full root, and one free page, 421.
    EightLevels,
}

/// What is done, one after the other.
pub struct Scenario {
    pub name: &'static str,
    pub tree: Tree,
    pub steps: &'static [Step],
}

static SCENARIOS: [Scenario; 9] = [
    Scenario {
        name: "a full root leaf is lifted, the new page is split, and both halves take keys",
        tree: Tree::OneLeaf {
            entries: 60,
            free: 2,
        },
        steps: &[
            Step::Call(Call::Begin, Told::Did(true)),
            Step::Call(Call::Put(5, 7), Told::Full),
            Step::Run(&[0], 1),
            Step::Lift(1, Made::Done),
            Step::Run(&[0, 1], 1),
            Step::Find(0),
            Step::Call(Call::Put(5, 7), Told::Full),
            Step::Split([1, 2, 0], Made::Done),
            Step::Run(&[0, 1], 0),
            Step::Run(&[0, 2], 0),
            Step::Find(0),
            Step::Call(Call::Put(5, 7), Told::Word(None)),
            Step::Call(Call::Put(595, 8), Told::Word(None)),
            Step::Find(0),
            Step::Call(Call::Put(290, 9), Told::Word(Some(29))),
            Step::Call(Call::Put(300, 10), Told::Word(Some(30))),
            Step::Call(Call::Find(5), Told::Word(Some(7))),
            Step::Call(Call::Find(595), Told::Word(Some(8))),
            Step::Call(Call::Find(290), Told::Word(Some(9))),
            Step::Call(Call::Find(300), Told::Word(Some(10))),
            Step::Call(Call::End, Told::Did(true)),
        ],
    },
    Scenario {
        name: "a full leaf under a full root: the root is lifted, the new page split, and then the leaf",
        tree: Tree::TwoLevels {
            leaves: 60,
            entries: 60,
            free: 3,
        },
        steps: &[
            Step::Call(Call::Begin, Told::Did(true)),
            Step::Run(&[0, 5], 2),
            Step::Split([5, 61, 0], Made::Full(0)),
            Step::Lift(61, Made::Done),
            Step::Run(&[0, 61, 5], 2),
            Step::Split([5, 62, 61], Made::Full(61)),
            Step::Split([61, 62, 0], Made::Done),
            Step::Run(&[0, 61, 5], 1),
            Step::Split([5, 63, 62], Made::Stale(62)),
            Step::Split([5, 63, 61], Made::Done),
            Step::Run(&[0, 61, 5], 0),
            Step::Run(&[0, 61, 63], 0),
            Step::Run(&[0, 62, 60], 1),
            Step::Call(Call::Put(4005, 7), Told::Word(None)),
            Step::Call(Call::Put(4595, 8), Told::Word(None)),
            Step::Call(Call::Find(4005), Told::Word(Some(7))),
            Step::Call(Call::Find(4595), Told::Word(Some(8))),
            Step::Find(3000),
            Step::Find(4000),
            Step::Find(5000),
            Step::Find(29000),
            Step::Find(30000),
            Step::Find(59000),
        ],
    },
    Scenario {
        name: "a root with room is not lifted",
        tree: Tree::OneLeaf {
            entries: 59,
            free: 1,
        },
        steps: &[
            Step::Call(Call::Begin, Told::Did(true)),
            Step::Run(&[0], 0),
            Step::Lift(1, Made::Stale(0)),
            Step::Lift(0, Made::Latched(0)),
            Step::Lift(2, Made::NoFrame),
        ],
    },
    Scenario {
        name: "a root is lifted into no page that is not free",
        tree: Tree::TwoLevels {
            leaves: 60,
            entries: 0,
            free: 1,
        },
        steps: &[
            Step::Call(Call::Begin, Told::Did(true)),
            Step::Lift(60, Made::Stale(60)),
            Step::Lift(61, Made::Done),
        ],
    },
    Scenario {
        name: "a root of the greatest level is not lifted",
        tree: Tree::EightLevels,
        steps: &[
            Step::Call(Call::Begin, Told::Did(true)),
            Step::Run(&[0], 1),
            Step::Lift(421, Made::TooTall),
        ],
    },
    Scenario {
        name: "a leaf with room is not split",
        tree: Tree::TwoLevels {
            leaves: 2,
            entries: 59,
            free: 1,
        },
        steps: &[
            Step::Call(Call::Begin, Told::Did(true)),
            Step::Run(&[0, 1], 0),
            Step::Split([1, 3, 0], Made::Stale(1)),
        ],
    },
    Scenario {
        name: "a full leaf is split into a free page alone, under its parent alone",
        tree: Tree::TwoLevels {
            leaves: 2,
            entries: 60,
            free: 1,
        },
        steps: &[
            Step::Split([1, 3, 0], Made::Spent),
            Step::Call(Call::Begin, Told::Did(true)),
            Step::Run(&[0, 1], 1),
            Step::Split([1, 2, 0], Made::Stale(2)),
            Step::Split([1, 3, 2], Made::Stale(2)),
            Step::Split([1, 1, 0], Made::Latched(1)),
            Step::Split([1, 4, 0], Made::NoFrame),
            Step::Split([1, 3, 0], Made::Done),
            Step::Find(0),
            Step::Find(1000),
        ],
    },
    Scenario {
        name: "a full log takes no record of a lift",
        tree: Tree::OneLeaf {
            entries: 60,
            free: 1,
        },
        steps: &[
            Step::Call(Call::Begin, Told::Did(true)),
            Step::FillLog,
            Step::Lift(1, Made::Unstaged),
            Step::Run(&[0], 1),
            Step::Find(0),
        ],
    },
    Scenario {
        name: "a full log takes no record of a split",
        tree: Tree::TwoLevels {
            leaves: 2,
            entries: 60,
            free: 1,
        },
        steps: &[
            Step::Call(Call::Begin, Told::Did(true)),
            Step::FillLog,
            Step::Split([1, 3, 0], Made::Unstaged),
            Step::Run(&[0, 1], 1),
            Step::Find(0),
        ],
    },
];

// With three workers the first frame row begins here, with its latch.
const FIRST: usize = 14;

/// The words of a frame row, its latch with them.
const ROW: usize = 129;

/// How many lock rows there are, at the end of the words.
const LOCKS: u32 = 8;

/// The words of a lock row, its latch with them.
const LOCK_ROW: usize = 6;

// A leaf, page 0: key `10 * i` has the word `i`, and the first ones are tombstones.
fn leaf_of(entries: u64, dead: u64) -> Node
    requires entries { entries ≤ 60 }
{
    let mut leaf = Node::empty_leaf(0, 0, u64::MAX);
    for entry in 0..entries {
        let key = 10 * entry;
        let word = if entry < dead { TOMBSTONE } else { entry };
        if leaf.low() <= key && key < leaf.high() {
            let _ = leaf.put(key, word);
        }
    }
    leaf
}

fn pages_of(alloc: Global, tree: Tree) -> Result<Vec<Node>, AllocError> {
    match tree {
        Tree::OneLeaf { entries, free } => one_leaf(alloc, 10, entries.min(60), free.min(60)),
        Tree::Tombstones { entries, dead } => {
            let mut pages = Vec::new(alloc);
            pages.push(leaf_of(entries.min(60), dead))?;
            Ok(pages)
        }
        Tree::TwoLevels {
            leaves,
            entries,
            free,
        } => {
            let leaves = leaves.min(60);
            let mut pages = two_levels(alloc, leaves, 1000, 10, entries.min(60))?;
            for page in 0..free.min(60) {
                pages.push(Node::free(leaves + 1 + page))?;
            }
            Ok(pages)
        }
        Tree::EightLevels => eight_levels(alloc),
    }
}

// Three workers and eight lock rows over a tree, each page of which has a frame.
fn opened(alloc: Global, tree: Tree) -> Result<Sessions, Unopened>
    ensures { IfOk result (λ s. Stands s × (3 ≤ workers_of s)) }
{
    let Ok(pages) = pages_of(alloc, tree) else {
        return Err(Unopened::Memory);
    };
    let Ok(frames) = u32::try_from(pages.len()) else {
        return Err(Unopened::Sizes);
    };
    Sessions::open(alloc, &pages, frames, LOCKS, 3, 7)
}

fn made_of(outcome: Result<(), Unchanged>) -> Made {
    match outcome {
        Ok(()) => Made::Done,
        Err(Unchanged::Spent) => Made::Spent,
        Err(Unchanged::NoFrame) => Made::NoFrame,
        Err(Unchanged::Refused(outcome)) => refused(outcome),
    }
}

fn purged_of(outcome: Result<(), Unpurged>) -> Made {
    match outcome {
        Ok(()) => Made::Done,
        Err(Unpurged::Spent) => Made::Spent,
        Err(Unpurged::NoFrame) => Made::NoFrame,
        Err(Unpurged::Spared(left)) => Made::Spared(left),
        Err(Unpurged::Refused(outcome)) => refused(outcome),
    }
}

fn refused(outcome: Outcome) -> Made {
    match outcome {
        Outcome::Full { row } => Made::Full(row),
        Outcome::TooTall => Made::TooTall,
        Outcome::Stale { row } => Made::Stale(row),
        Outcome::Latched(latched) => Made::Latched(latched.row),
        Outcome::Unstaged(_) => Made::Unstaged,
        _ => Made::Other,
    }
}

// Whether a latch has this place; the lock rows begin at another.
fn is_latch(at: usize, locks: usize) -> bool {
    if at >= locks {
        (at - locks) % LOCK_ROW == 0
    } else {
        at >= FIRST && (at - FIRST) % ROW == 0
    }
}

// Whether only latches are other words.
fn are_alike(before: &[u64], after: &[u64]) -> bool {
    if before.len() != after.len() {
        return false;
    }
    let locks = before.len().saturating_sub(LOCKS as usize * LOCK_ROW);
    for at in 0..before.len() {
        if before[at] != after[at] && !is_latch(at, locks) {
            return false;
        }
    }
    true
}

fn path_of(frames: &[u32]) -> Path {
    let mut path = Path::new();
    for frame in frames {
        if path.len() < DEEPEST {
            path.push(*frame);
        }
    }
    path
}

// Whether sixty keys have their words.
fn finds(sessions: &mut Sessions, first: u32) -> bool
    requires { Stands sessions.old × (3 ≤ workers_of sessions.old) }
    ensures { Stands sessions.new × (3 ≤ workers_of sessions.new) }
{
    for place in 0..60u32 {
        let key = first.saturating_add(10 * place);
        if answer(sessions, 1, Call::Find(key)) != Told::Word(Some(u64::from(place))) {
            return false;
        }
    }
    true
}

// Whether a call is told this.
fn is_answered(sessions: &mut Sessions, call: Call, told: Told) -> bool
    requires { Stands sessions.old × (3 ≤ workers_of sessions.old) }
    ensures { Stands sessions.new × (3 ≤ workers_of sessions.new) }
{
    answer(sessions, 1, call) == told
}

// Whether this comes of a lift.
fn lifts(sessions: &mut Sessions, frame: u32, to: Made) -> bool
    requires { Stands sessions.old × (3 ≤ workers_of sessions.old) }
    ensures { Stands sessions.new × (3 ≤ workers_of sessions.new) }
{
    made_of(sessions.lift(1, frame)) == to
}

// Whether this comes of a split.
fn splits(sessions: &mut Sessions, frames: [u32; 3], to: Made) -> bool
    requires { Stands sessions.old × (3 ≤ workers_of sessions.old) }
    ensures { Stands sessions.new × (3 ≤ workers_of sessions.new) }
{
    let [left, right, parent] = frames;
    made_of(sessions.split(1, left, right, parent)) == to
}

// Whether this comes of a drop of the root's one child.
fn drops(sessions: &mut Sessions, frame: u32, to: Made) -> bool
    requires { Stands sessions.old × (3 ≤ workers_of sessions.old) }
    ensures { Stands sessions.new × (3 ≤ workers_of sessions.new) }
{
    made_of(sessions.drop_root(1, frame)) == to
}

// Whether this comes of a join.
fn joins(sessions: &mut Sessions, frames: [u32; 3], to: Made) -> bool
    requires { Stands sessions.old × (3 ≤ workers_of sessions.old) }
    ensures { Stands sessions.new × (3 ≤ workers_of sessions.new) }
{
    let [left, right, parent] = frames;
    made_of(sessions.join(1, left, right, parent)) == to
}

// Whether this comes of a purge.
fn purges(sessions: &mut Sessions, leaf: u32, most: usize, to: Made) -> bool
    requires { Stands sessions.old × (3 ≤ workers_of sessions.old) }
    ensures { Stands sessions.new × (3 ≤ workers_of sessions.new) }
{
    purged_of(sessions.purge(1, leaf, most)) == to
}

// Whether so many nodes at the end of a path are full.
fn runs(sessions: &mut Sessions, frames: &[u32], full: usize) -> bool
    requires { Stands sessions.old × (3 ≤ workers_of sessions.old) }
    ensures { Stands sessions.new × (3 ≤ workers_of sessions.new) }
{
    let path = path_of(frames);
    sessions.full_run(&path) == Some(full)
}

// Whether what a step does comes out as it says.
fn comes(sessions: &mut Sessions, step: Step) -> bool
    requires { Stands sessions.old × (3 ≤ workers_of sessions.old) }
    ensures { Stands sessions.new × (3 ≤ workers_of sessions.new) }
{
    match step {
        Step::Call(call, told) => is_answered(sessions, call, told),
        Step::Lift(frame, to) => lifts(sessions, frame, to),
        Step::Split(frames, to) => splits(sessions, frames, to),
        Step::Drop(frame, to) => drops(sessions, frame, to),
        Step::Join(frames, to) => joins(sessions, frames, to),
        Step::Purge(leaf, most, to) => purges(sessions, leaf, most, to),
        Step::Run(frames, full) => runs(sessions, frames, full),
        Step::Find(first) => finds(sessions, first),
        Step::FillLog => {
            sessions.fill_log();
            true
        }
    }
}

// Whether the step changes no word of a page.
fn changes_nothing(step: Step) -> bool {
    match step {
        Step::Call(_, _) => false,
        Step::Lift(_, to) => to != Made::Done,
        Step::Split(_, to) => to != Made::Done,
        Step::Drop(_, to) => to != Made::Done,
        Step::Join(_, to) => to != Made::Done,
        Step::Purge(_, _, to) => to != Made::Done,
        Step::Run(_, _) => true,
        Step::Find(_) => true,
        Step::FillLog => true,
    }
}

// Whether a step comes out as it says, and leaves the rows where it is refused.
fn goes(sessions: &mut Sessions, alloc: Global, step: Step) -> bool
    requires { Stands sessions.old × (3 ≤ workers_of sessions.old) }
    ensures { Stands sessions.new × (3 ≤ workers_of sessions.new) }
{
    let Ok(before) = sessions.words().to_vec(alloc) else {
        return false;
    };
    comes(sessions, step) && (!changes_nothing(step) || are_alike(&before, sessions.words()))
}

// Whether each step comes out as it says.
fn all_go(sessions: &mut Sessions, alloc: Global, steps: &[Step]) -> bool
    requires { Stands sessions.old × (3 ≤ workers_of sessions.old) }
    ensures { Stands sessions.new × (3 ≤ workers_of sessions.new) }
{
    for step in steps {
        if !goes(sessions, alloc, *step) {
            return false;
        }
    }
    true
}

/// Whether each step of a scenario comes out as it says.
pub fn is_met(alloc: Global, scenario: &Scenario) -> bool {
    match opened(alloc, scenario.tree) {
        Ok(mut sessions) => all_go(&mut sessions, alloc, scenario.steps),
        Err(_) => false,
    }
}

#[test]
fn each_step_comes_out_as_its_row_says(rt: HostRuntime) {
    for scenario in &SCENARIOS {
        expect(&rt, scenario.name, is_met(rt.alloc(), scenario));
    }
}
