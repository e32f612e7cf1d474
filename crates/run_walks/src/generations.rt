// Keys that are put and deleted, generation by generation: the tree stays within a fixed number of pages, beside the plain rules and on a disk of so many.
use crate::cases::expect;
use crate::rule_files::Left;
use crate::ruled::run_whole;
use crate::rules::Rules;
use crate::runs::formatted;
use lean_disk::MemDisk;
use map_model::Call;
use std::alloc::Global;
use std::process::Abort;
use std::sync::Wait;
use std::thread::Threads;

// How many generations there are, of so many keys each.
const GENERATIONS: u64 = 100;

const KEYS: u64 = 2000;

// So many pages are enough, of which three are inner ones: a leaf that was split has half of sixty keys, a put which finds its leaf full of a generation
// that is gone takes no page, and a leaf whose last keys are deleted is joined.
const PAGES: usize = 71;

// Key i of generation g is `apart` times i and `next` times g. A transaction changes so many.
#[derive(Clone, Copy)]
struct Case {
    name: &'static str,
    apart: u64,
    next: u64,
    changes: u64,
}

static CASES: [Case; 4] = [
    Case {
        name: "the same keys",
        apart: 100,
        next: 0,
        changes: 50,
    },
    Case {
        name: "keys between those of the generation before",
        apart: 100,
        next: 1,
        changes: 50,
    },
    Case {
        name: "keys between those of the generation before, few at a time",
        apart: 100,
        next: 1,
        changes: 10,
    },
    // The deleted keys of a transaction that is open can't go: where one deletes all keys of a leaf, no later one finds it thin.
    Case {
        name: "keys behind those of the generation before, few at a time",
        apart: 1,
        next: KEYS,
        changes: 10,
    },
];

static FORMAT: [&str; 8] = [
    "lean",
    "format",
    "--workers",
    "1",
    "--pages",
    "71",
    "--blocks",
    "512",
];

// A transaction that puts or deletes some keys of a generation.
fn add_changes<R: Abort>(
    rt: &R,
    rules: &mut Rules,
    case: &Case,
    generation: u64,
    first: u64,
    is_put: bool,
) {
    rules.add(rt, 1, Call::Begin);
    for place in first..first.saturating_add(case.changes) {
        let key = place
            .saturating_mul(case.apart)
            .saturating_add(generation.saturating_mul(case.next));
        if is_put {
            let value = generation;
            rules.add(rt, 1, Call::Put { key, value });
        } else {
            rules.add(rt, 1, Call::Del { key });
        }
    }
    rules.add(rt, 1, Call::Commit);
}

// Some keys of the generation before are deleted, and then as many of this one are put, and so on.
fn add_generation<R: Abort>(rt: &R, rules: &mut Rules, case: &Case, generation: u64) {
    let mut first = 0u64;
    for _ in 0..KEYS {
        if first < KEYS {
            if generation > 0 {
                add_changes(rt, rules, case, generation.saturating_sub(1), first, false);
            }
            if generation < GENERATIONS {
                add_changes(rt, rules, case, generation, first, true);
            }
            first = first.saturating_add(case.changes);
        }
    }
}

// Each generation is a run. All lines are as the rules say, and none of them refuses a page.
fn go<R: Threads + Wait + Sync + Abort>(rt: &R, alloc: Global, case: &Case) {
    let mut disk: MemDisk = formatted(rt, alloc, &FORMAT);
    let mut left = Left::new(rt, alloc, PAGES);
    for generation in 0..=GENERATIONS {
        let mut rules = Rules::open(rt, alloc, &left, 1, 256, 1);
        add_generation(rt, &mut rules, case, generation);
        let is_room = !rules.printed.as_str().contains(" no-pages");
        expect(rt, case.name, is_room);
        let (next, found) = run_whole(rt, alloc, case.name, &rules, &left, disk);
        disk = next;
        left = found;
    }
}

#[test]
fn the_same_keys_that_come_and_go_stay_within_so_many_pages(rt: HostRuntime) {
    go(&rt, rt.alloc(), &CASES[0]);
}

#[test]
fn keys_between_those_before_stay_within_so_many_pages(rt: HostRuntime) {
    go(&rt, rt.alloc(), &CASES[1]);
}

#[test]
fn keys_between_those_before_few_at_a_time_stay_within_so_many_pages(rt: HostRuntime) {
    go(&rt, rt.alloc(), &CASES[2]);
}

#[test]
fn keys_behind_those_before_stay_within_so_many_pages(rt: HostRuntime) {
    go(&rt, rt.alloc(), &CASES[3]);
}
