// Scripts on trees of many pages, in few frames.
use crate::cases::expect;
use crate::found::{Scene, judge};
use crate::plain::{Left, Plain, Wanted, set};
use crate::runs::{
    MEMORY, Outcome, any_below, any_crash, at_rest, crashed, formatted, run_command,
};
use crate::walks::{Walk, add_lines};
use lean_disk::MemDisk;
use rand_core::utils::NextWord;
use rand_pcg::Pcg32;
use std::alloc::Global;
use std::collections::BTreeMap;
use std::process::Abort;
use std::sync::Wait;
use std::thread::Threads;

/// A disk, its tree, the frames, and how many scripts run on it, one after another.
pub(crate) struct Tree {
    pub pages: &'static str,
    pub blocks: &'static str,
    pub frames: &'static str,
    // How many calls of the pages' area an opening makes.
    pub reads: u64,
    pub walk: Walk,
    pub scripts: u64,
}

/// Trees of some 200, 600 and 2,000 pages: put in rising order, each leaf has 30 of the even keys.
pub(crate) static TREES: [Tree; 5] = [
    Tree {
        pages: "400",
        blocks: "512",
        frames: "32",
        reads: 800,
        walk: Walk {
            sessions: 3,
            bound: 12_000,
            lines: 80,
            ends: 12,
        },
        scripts: 60,
    },
    Tree {
        pages: "400",
        blocks: "512",
        frames: "33",
        reads: 800,
        walk: Walk {
            sessions: 3,
            bound: 12_000,
            lines: 250,
            ends: 1,
        },
        scripts: 62,
    },
    Tree {
        pages: "1024",
        blocks: "1024",
        frames: "36",
        reads: 2048,
        walk: Walk {
            sessions: 3,
            bound: 36_000,
            lines: 120,
            ends: 8,
        },
        scripts: 30,
    },
    Tree {
        pages: "4096",
        blocks: "4096",
        frames: "40",
        reads: 8192,
        walk: Walk {
            sessions: 3,
            bound: 120_000,
            lines: 200,
            ends: 6,
        },
        scripts: 8,
    },
    Tree {
        pages: "400",
        blocks: "512",
        frames: "32",
        reads: 800,
        walk: Walk {
            sessions: 1,
            bound: 12_000,
            lines: 150,
            ends: 5,
        },
        scripts: 80,
    },
];

// How many crashes each script has. Behind the last one the next script begins.
const CRASHES: u64 = 20;

// How many of its calls fail, one in each of so many runs.
const FAULTS: u64 = 4;

// A script makes fewer calls of an area than these.
const MOST: u64 = 1000;

// The areas of a disk of three sessions.
const AREAS: u32 = 5;

// How many keys a transaction puts that makes a tree.
const PUTS: u64 = 60;

/// Puts each even key below a bound. What is left, and the disk with no block to redo.
pub(crate) fn grown<R: Threads + Wait + Sync + Abort>(
    rt: &R,
    alloc: Global,
    tree: &Tree,
) -> (MemDisk, Left) {
    let mut text = String::new(alloc);
    let mut map = BTreeMap::new(alloc);
    text.push_str("1 begin\n").expect(rt, MEMORY);
    for place in 0..tree.walk.bound / 2 {
        let key = place.saturating_mul(2);
        if place % PUTS == PUTS.saturating_sub(1) {
            text.push_str("1 commit\n1 begin\n").expect(rt, MEMORY);
        }
        let line = format!(in alloc; "1 put {key} {place}\n").expect(rt, MEMORY);
        text.push_str(&line).expect(rt, MEMORY);
        set(&mut map, key, Some(place)).expect(rt, MEMORY);
    }
    text.push_str("1 commit\n").expect(rt, MEMORY);
    let new = formatted(rt, alloc, tree.pages, tree.blocks);
    let put = run_command(rt, alloc, &["lean", "run"], text.as_str(), new);
    expect(rt, "a tree that was made", put.status == 0);
    let next = run_command(rt, alloc, &["lean", "run"], "", at_rest(rt, &put.disk));
    (
        at_rest(rt, &next.disk),
        Left::of(alloc, map).expect(rt, MEMORY),
    )
}

// Whether further lines answer the same call.
fn goes_on(line: &str) -> bool {
    line.contains(" pair ") || line.contains(" conflict ")
}

// Takes a durable line away from those that are due. Of each session the oldest comes first.
fn is_due<R: Abort>(rt: &R, alloc: Global, due: &mut Vec<String>, line: &str) -> bool {
    let mut rest = Vec::new(alloc);
    let mut is_found = false;
    let mut is_first = true;
    for one in due.as_slice() {
        if !is_found && one.as_str() == line {
            is_found = true;
        } else {
            is_first = is_first && (is_found || one.as_bytes().first() != line.as_bytes().first());
            let copy = String::from_str(alloc, one.as_str()).expect(rt, MEMORY);
            rest.push(copy).expect(rt, MEMORY);
        }
    }
    *due = rest;
    is_found && is_first
}

/// Whether these lines are those that are wanted, from the first on, and among them each commit durable once, behind its answer, and before the line behind the next
/// sync; and none between the answers to one line. How many of those that are wanted were there; none where one is another.
pub(crate) fn count_met<R: Abort>(
    rt: &R,
    alloc: Global,
    printed: &str,
    wanted: &[Wanted],
) -> Option<usize> {
    let mut wants = wanted.iter();
    let mut met = 0usize;
    let mut due = Vec::new(alloc);
    let mut is_synced = false;
    let mut is_within = false;
    for line in printed.lines() {
        if line.contains(" durable ") {
            if is_within || !is_due(rt, alloc, &mut due, line) {
                return None;
            }
        } else {
            let want = wants.next()?;
            let text = want.line.as_str();
            let is_met = if text.ends_with(' ') {
                line.starts_with(text)
            } else {
                line == text
            };
            if !is_met || is_synced && due.len() > 0 {
                return None;
            }
            met = met.saturating_add(1);
            is_synced = line.starts_with("synced ");
            is_within = goes_on(line);
            if let Some(durable) = &want.durable {
                let copy = String::from_str(alloc, durable.as_str()).expect(rt, MEMORY);
                due.push(copy).expect(rt, MEMORY);
            }
        }
    }
    Some(met)
}

/// What is printed behind the first line.
pub(crate) fn behind_first(printed: &str) -> &str {
    match printed.split_once('\n') {
        Some((_, rest)) => rest,
        None => "",
    }
}

// The command of a script, with these frames.
fn run_in<R: Threads + Wait + Sync + Abort>(
    rt: &R,
    alloc: Global,
    group: &str,
    frames: &str,
    text: &str,
    disk: MemDisk,
) -> Outcome {
    let command = ["lean", "run", "--rows", "4096", "--group", group];
    run_command(rt, alloc, &command, text, disk)
}

// A call of an area fails: the run ends with status 6, its lines are a prefix of those that are wanted, and behind a crash what was told durable is there. Whether the
// run made the call.
fn fail_at<R: Threads + Wait + Sync + Abort>(
    rt: &R,
    alloc: Global,
    random: &mut Pcg32,
    scene: &Scene<'_>,
    tree: &Tree,
    disk: &MemDisk,
    area: u32,
    call: u64,
) -> bool {
    let mut faulty = at_rest(rt, disk);
    faulty.fail_at(area, [call].to_vec(alloc).expect(rt, MEMORY));
    let run = run_in(
        rt,
        alloc,
        "1",
        tree.frames,
        scene.plain.text.as_str(),
        faulty,
    );
    if run.status == 0 {
        return false;
    }
    let printed = run.printed();
    expect(rt, "the status of a fault", run.status == 6);
    let lines = printed
        .strip_suffix("lean: disk fault\n")
        .expect(rt, "the line of a fault");
    let met = count_met(rt, alloc, behind_first(lines), &scene.plain.wanted);
    expect(rt, "the lines before a fault", met.is_some());
    let end = run.disk.moment();
    let crash = any_crash(random, end, end);
    let left = crashed(rt, alloc, &run.disk, &crash);
    judge(rt, alloc, scene, &run, end, &left);
    true
}

// One of the calls fails behind the reads of an opening, at random.
fn fail_once<R: Threads + Wait + Sync + Abort>(
    rt: &R,
    alloc: Global,
    random: &mut Pcg32,
    scene: &Scene<'_>,
    tree: &Tree,
    disk: &MemDisk,
) {
    let area = random.next_word() % AREAS;
    let opening = if area == 1 { tree.reads } else { 0 };
    let call = opening.saturating_add(any_below(random, 200));
    fail_at(rt, alloc, random, scene, tree, disk, area, call);
}

// A script on a disk, its faults and its crashes. What the last crash leaves.
fn run_once<R: Threads + Wait + Sync + Abort>(
    rt: &R,
    alloc: Global,
    random: &mut Pcg32,
    tree: &Tree,
    number: u64,
    before: &Left,
    disk: &MemDisk,
) -> (MemDisk, Left) {
    let mut plain = Plain::new(alloc, before, number).expect(rt, MEMORY);
    add_lines(rt, random, &mut plain, &tree.walk);
    let group = match any_below(random, 3) {
        _ if tree.walk.sessions == 1 => "1",
        0 => "1",
        1 => "2",
        _ => "64",
    };
    let text = plain.text.as_str();
    let run = run_in(rt, alloc, group, tree.frames, text, at_rest(rt, disk));
    let met = count_met(rt, alloc, behind_first(run.printed()), &plain.wanted);
    expect(
        rt,
        "the lines of a run",
        run.status == 0 && met == Some(plain.wanted.len()),
    );
    if tree.walk.sessions == 1 {
        let whole = run_in(rt, alloc, group, "4096", text, at_rest(rt, disk));
        expect(
            rt,
            "the lines of a run with all pages in frames",
            whole.printed() == run.printed(),
        );
    }
    let scene = Scene {
        before,
        plain: &plain,
    };
    for _ in 0..FAULTS {
        fail_once(rt, alloc, random, &scene, tree, disk);
    }
    let end = run.disk.moment();
    // Seldom in the opening.
    let opened = run.sink.moments.first().copied().unwrap_or(0);
    let mut left = at_rest(rt, &run.disk);
    let mut found = judge(rt, alloc, &scene, &run, end, &left);
    for _ in 0..CRASHES {
        let first = if any_below(random, 8) == 0 { 0 } else { opened };
        let crash = any_crash(random, first, end);
        left = crashed(rt, alloc, &run.disk, &crash);
        found = judge(rt, alloc, &scene, &run, crash.moment, &left);
    }
    (left, found)
}

// Goes through the scripts of a tree.
fn go<R: Threads + Wait + Sync + Abort>(rt: &R, alloc: Global, place: usize, seed: u64) {
    let tree = TREES.get(place).expect(rt, "a tree");
    let mut random = Pcg32::new(seed, 4);
    let (mut disk, mut before) = grown(rt, alloc, tree);
    for number in 1..=tree.scripts {
        let (left, found) = run_once(rt, alloc, &mut random, tree, number, &before, &disk);
        disk = left;
        before = found;
    }
}

#[test]
fn random_scripts_over_200_pages_are_answered_as_by_a_plain_map(rt: HostRuntime) {
    go(&rt, rt.alloc(), 0, 41);
}

#[test]
fn further_scripts_over_200_pages_are_answered_as_by_a_plain_map(rt: HostRuntime) {
    go(&rt, rt.alloc(), 0, 47);
}

#[test]
fn long_transactions_over_200_pages_are_answered_as_by_a_plain_map(rt: HostRuntime) {
    go(&rt, rt.alloc(), 1, 53);
}

#[test]
fn random_scripts_over_600_pages_are_answered_as_by_a_plain_map(rt: HostRuntime) {
    go(&rt, rt.alloc(), 2, 59);
}

#[test]
fn random_scripts_over_2000_pages_are_answered_as_by_a_plain_map(rt: HostRuntime) {
    go(&rt, rt.alloc(), 3, 61);
}

#[test]
fn scripts_of_one_session_print_the_same_in_few_frames(rt: HostRuntime) {
    go(&rt, rt.alloc(), 4, 67);
}

// Each call of the disk behind the reads of the opening, until the run makes no more.
#[test]
fn each_call_that_fails_keeps_what_was_told(rt: HostRuntime) {
    let alloc = rt.alloc();
    let tree = TREES.get(4).expect(&rt, "a tree");
    let mut random = Pcg32::new(43, 4);
    let (disk, before) = grown(&rt, alloc, tree);
    let mut plain = Plain::new(alloc, &before, 1).expect(&rt, MEMORY);
    add_lines(&rt, &mut random, &mut plain, &tree.walk);
    let scene = Scene {
        before: &before,
        plain: &plain,
    };
    for area in 0..AREAS {
        let first = if area == 1 { tree.reads } else { 1 };
        let mut is_made = true;
        for call in first..first.saturating_add(MOST) {
            is_made = is_made && fail_at(&rt, alloc, &mut random, &scene, tree, &disk, area, call);
        }
        expect(&rt, "the calls of an area", !is_made);
    }
}
