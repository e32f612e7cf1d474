// Drops of the root's one child, joins and purges: what each makes of a tree, and what refuses it.

use crate::answers::{Call, TOMBSTONE, Told};
use crate::expect::expect;
use crate::structure::{Made, Scenario, Step, Tree, is_met};
use key_locks::mode::Mode;

static SCENARIOS: [Scenario; 11] = [
    Scenario {
        name: "a root that was lifted drops its one child, and is lifted again",
        tree: Tree::OneLeaf {
            entries: 60,
            free: 2,
        },
        steps: &[
            Step::Drop(1, Made::Spent),
            Step::Call(Call::Begin, Told::Did(true)),
            Step::Drop(1, Made::Stale(0)),
            Step::Lift(1, Made::Done),
            Step::Drop(2, Made::Stale(0)),
            Step::Drop(0, Made::Latched(0)),
            Step::Drop(3, Made::NoFrame),
            Step::Drop(1, Made::Done),
            Step::Run(&[0], 1),
            Step::Find(0),
            Step::Call(Call::Put(590, 8), Told::Word(Some(59))),
            Step::Call(Call::Put(590, 59), Told::Word(Some(8))),
            Step::Lift(1, Made::Done),
            Step::Split([1, 2, 0], Made::Done),
            Step::Drop(1, Made::Stale(0)),
            Step::Drop(2, Made::Stale(0)),
            Step::Find(0),
        ],
    },
    Scenario {
        name: "a full log takes no record of a drop",
        tree: Tree::OneLeaf {
            entries: 60,
            free: 1,
        },
        steps: &[
            Step::Call(Call::Begin, Told::Did(true)),
            Step::Lift(1, Made::Done),
            Step::FillLog,
            Step::Drop(1, Made::Unstaged),
            Step::Find(0),
        ],
    },
    Scenario {
        name: "two leaves are joined, and the root drops the one that is left",
        tree: Tree::TwoLevels {
            leaves: 2,
            entries: 22,
            free: 0,
        },
        steps: &[
            Step::Join([1, 2, 0], Made::Spent),
            Step::Call(Call::Begin, Told::Did(true)),
            Step::Join([1, 2, 0], Made::Done),
            Step::Call(Call::Find(0), Told::Word(Some(0))),
            Step::Call(Call::Find(210), Told::Word(Some(21))),
            Step::Call(Call::Find(1000), Told::Word(Some(0))),
            Step::Call(Call::Find(1210), Told::Word(Some(21))),
            Step::Call(Call::Put(500, 7), Told::Word(None)),
            Step::Call(Call::Put(1005, 8), Told::Word(None)),
            Step::Drop(1, Made::Done),
            Step::Call(Call::Find(210), Told::Word(Some(21))),
            Step::Call(Call::Find(500), Told::Word(Some(7))),
            Step::Call(Call::Find(1005), Told::Word(Some(8))),
            Step::Call(Call::Find(1210), Told::Word(Some(21))),
            Step::Call(Call::Put(5000, 9), Told::Word(None)),
            Step::Call(Call::Find(5000), Told::Word(Some(9))),
            Step::Call(Call::End, Told::Did(true)),
        ],
    },
    Scenario {
        name: "leaves with more than forty-five entries are not joined, nor are others than neighbours",
        tree: Tree::TwoLevels {
            leaves: 3,
            entries: 23,
            free: 1,
        },
        steps: &[
            Step::Call(Call::Begin, Told::Did(true)),
            Step::Join([1, 2, 0], Made::Full(1)),
            Step::Join([1, 3, 0], Made::Stale(3)),
            Step::Join([2, 1, 0], Made::Stale(1)),
            Step::Join([4, 2, 0], Made::Stale(0)),
            Step::Join([1, 4, 0], Made::Stale(0)),
            Step::Join([1, 1, 0], Made::Latched(1)),
            Step::Join([1, 2, 5], Made::NoFrame),
        ],
    },
    Scenario {
        name: "leaves are joined under their parent alone",
        tree: Tree::TwoLevels {
            leaves: 3,
            entries: 20,
            free: 1,
        },
        steps: &[
            Step::Call(Call::Begin, Told::Did(true)),
            Step::Join([1, 2, 3], Made::Stale(3)),
            Step::Join([1, 2, 4], Made::Stale(4)),
            Step::Join([2, 3, 0], Made::Done),
            Step::Join([1, 2, 0], Made::Full(1)),
        ],
    },
    Scenario {
        name: "a full log takes no record of a join",
        tree: Tree::TwoLevels {
            leaves: 2,
            entries: 10,
            free: 0,
        },
        steps: &[
            Step::Call(Call::Begin, Told::Did(true)),
            Step::FillLog,
            Step::Join([1, 2, 0], Made::Unstaged),
            Step::Call(Call::Find(1010), Told::Word(Some(1))),
        ],
    },
    Scenario {
        name: "three levels become two: leaves are joined, then their parents, and the root drops the one that is left",
        tree: Tree::TwoLevels {
            leaves: 60,
            entries: 3,
            free: 2,
        },
        steps: &[
            Step::Call(Call::Begin, Told::Did(true)),
            Step::Lift(61, Made::Done),
            Step::Split([61, 62, 0], Made::Done),
            Step::Join([61, 62, 0], Made::Full(61)),
            Step::Join([1, 2, 61], Made::Done),
            Step::Join([3, 4, 61], Made::Done),
            Step::Join([5, 6, 61], Made::Done),
            Step::Join([7, 8, 61], Made::Done),
            Step::Join([9, 10, 61], Made::Done),
            Step::Join([11, 12, 61], Made::Done),
            Step::Join([13, 14, 61], Made::Done),
            Step::Join([15, 16, 61], Made::Done),
            Step::Join([17, 18, 61], Made::Done),
            Step::Join([19, 20, 61], Made::Done),
            Step::Join([21, 22, 61], Made::Done),
            Step::Join([23, 24, 61], Made::Done),
            Step::Join([25, 26, 61], Made::Done),
            Step::Join([27, 28, 61], Made::Done),
            Step::Join([29, 30, 61], Made::Done),
            Step::Join([29, 31, 61], Made::Stale(61)),
            Step::Join([61, 62, 0], Made::Done),
            Step::Join([29, 31, 61], Made::Done),
            Step::Drop(61, Made::Done),
            Step::Run(&[0, 29], 0),
            Step::Call(Call::Find(0), Told::Word(Some(0))),
            Step::Call(Call::Find(1020), Told::Word(Some(2))),
            Step::Call(Call::Find(28010), Told::Word(Some(1))),
            Step::Call(Call::Find(30010), Told::Word(Some(1))),
            Step::Call(Call::Find(59020), Told::Word(Some(2))),
            Step::Call(Call::Put(30005, 7), Told::Word(None)),
            Step::Call(Call::Find(30005), Told::Word(Some(7))),
        ],
    },
    Scenario {
        name: "the tombstones of a full leaf go, and it takes keys again",
        tree: Tree::Tombstones {
            entries: 60,
            dead: 20,
        },
        steps: &[
            Step::Purge(0, 60, Made::Spent),
            Step::Call(Call::Begin, Told::Did(true)),
            Step::Call(Call::Put(5, 7), Told::Full),
            Step::Call(Call::Find(190), Told::Word(Some(TOMBSTONE))),
            Step::Purge(1, 60, Made::NoFrame),
            Step::Purge(0, 39, Made::Spared(40)),
            Step::Purge(0, 40, Made::Done),
            Step::Run(&[0], 0),
            Step::Call(Call::Find(0), Told::Word(None)),
            Step::Call(Call::Find(190), Told::Word(None)),
            Step::Call(Call::Find(200), Told::Word(Some(20))),
            Step::Call(Call::Find(590), Told::Word(Some(59))),
            Step::Purge(0, 60, Made::Spared(40)),
            Step::Call(Call::Put(5, 7), Told::Word(None)),
            Step::Call(Call::Find(5), Told::Word(Some(7))),
            Step::Call(Call::End, Told::Did(true)),
        ],
    },
    Scenario {
        name: "tombstones stay whose lock row is held, or was given up after what is flushed",
        tree: Tree::Tombstones {
            entries: 20,
            dead: 20,
        },
        steps: &[
            Step::Call(Call::Begin, Told::Did(true)),
            Step::Call(Call::Lock(10, Mode::Alone), Told::Locked),
            Step::Call(Call::Lock(4, Mode::Shared), Told::Locked),
            Step::Purge(0, 9, Made::Spared(10)),
            Step::Purge(0, 10, Made::Done),
            Step::Call(Call::Find(0), Told::Word(None)),
            Step::Call(Call::Find(10), Told::Word(Some(TOMBSTONE))),
            Step::Call(Call::Find(20), Told::Word(Some(TOMBSTONE))),
            Step::Call(Call::Find(30), Told::Word(None)),
            Step::Purge(0, 60, Made::Spared(10)),
            Step::Call(Call::End, Told::Did(true)),
            Step::Call(Call::Unlock(10), Told::Did(true)),
            Step::Call(Call::Begin, Told::Did(true)),
            Step::Purge(0, 60, Made::Spared(10)),
        ],
    },
    Scenario {
        name: "a full log takes no record of a purge",
        tree: Tree::Tombstones {
            entries: 20,
            dead: 20,
        },
        steps: &[
            Step::Call(Call::Begin, Told::Did(true)),
            Step::FillLog,
            Step::Purge(0, 0, Made::Unstaged),
            Step::Call(Call::Find(10), Told::Word(Some(TOMBSTONE))),
        ],
    },
    Scenario {
        name: "words that are no tombstones stay, and a page that is no leaf has none",
        tree: Tree::TwoLevels {
            leaves: 2,
            entries: 60,
            free: 1,
        },
        steps: &[
            Step::Call(Call::Begin, Told::Did(true)),
            Step::Purge(1, 60, Made::Spared(60)),
            Step::Purge(0, 60, Made::Stale(0)),
            Step::Purge(3, 60, Made::Stale(3)),
        ],
    },
];

#[test]
fn each_step_comes_out_as_its_row_says(rt: HostRuntime) {
    for scenario in &SCENARIOS {
        expect(&rt, scenario.name, is_met(rt.alloc(), scenario));
    }
}
