// Random scripts of one to sixteen sessions, each line of whose output is as the rules say. Each run is crashed at random moments, of each area by
// a choice of its own, and what is left is what the rules say too.
use crate::cases::expect;
use crate::rule_crashes::Crash;
use crate::rule_files::{Left, NEVER, pairs_of};
use crate::rules::{OPENED, Rules};
use crate::runs::{MEMORY, RUN, at_rest, crashed, crashed_apart, dumped, formatted, run_command};
use lean_disk::{Choice, MemDisk};
use map_model::{Call, Replay};
use rand_core::utils::NextWord;
use rand_pcg::Pcg32;
use std::alloc::Global;
use std::collections::BTreeMap;
use std::process::Abort;
use std::sync::Wait;
use std::thread::Threads;

// Disks of one session up to so many, with so many pages and blocks, and a tree of so many keys, the even ones, put in rising order; and the scripts that run on each,
// one after another: how many, how many lines each has at least, and how many more for each session, and whether each second line deletes;
// at how many moments each is crashed, of which the last one is where the next script begins; and of how many scripts of one session each call of the disk fails once.
#[derive(Clone, Copy)]
struct Walk {
    seed: u64,
    disks: u64,
    sessions: u32,
    pages: (&'static str, usize),
    blocks: &'static str,
    keys: u64,
    scripts: u64,
    lines: u32,
    more: u32,
    deletes: bool,
    crashes: u64,
    failing: u64,
}

// Scripts over one leaf, and over trees that are nearly as large as their disks.
static WALKS: [Walk; 10] = [
    Walk {
        seed: 37,
        disks: 50,
        sessions: 16,
        pages: ("16", 16),
        blocks: "64",
        keys: 0,
        scripts: 4,
        lines: 24,
        more: 2,
        deletes: false,
        crashes: 20,
        failing: 0,
    },
    Walk {
        seed: 71,
        disks: 9,
        sessions: 3,
        pages: ("16", 16),
        blocks: "128",
        keys: 420,
        scripts: 10,
        lines: 60,
        more: 20,
        deletes: true,
        crashes: 20,
        failing: 4,
    },
    Walk {
        seed: 72,
        disks: 8,
        sessions: 3,
        pages: ("16", 16),
        blocks: "128",
        keys: 420,
        scripts: 10,
        lines: 60,
        more: 20,
        deletes: true,
        crashes: 20,
        failing: 0,
    },
    Walk {
        seed: 73,
        disks: 6,
        sessions: 3,
        pages: ("32", 32),
        blocks: "128",
        keys: 900,
        scripts: 10,
        lines: 60,
        more: 20,
        deletes: true,
        crashes: 20,
        failing: 3,
    },
    Walk {
        seed: 74,
        disks: 6,
        sessions: 3,
        pages: ("32", 32),
        blocks: "128",
        keys: 900,
        scripts: 10,
        lines: 60,
        more: 20,
        deletes: true,
        crashes: 20,
        failing: 0,
    },
    Walk {
        seed: 75,
        disks: 5,
        sessions: 3,
        pages: ("32", 32),
        blocks: "128",
        keys: 900,
        scripts: 10,
        lines: 60,
        more: 20,
        deletes: true,
        crashes: 20,
        failing: 0,
    },
    Walk {
        seed: 79,
        disks: 4,
        sessions: 3,
        pages: ("64", 64),
        blocks: "256",
        keys: 1860,
        scripts: 10,
        lines: 60,
        more: 20,
        deletes: true,
        crashes: 20,
        failing: 3,
    },
    Walk {
        seed: 80,
        disks: 4,
        sessions: 3,
        pages: ("64", 64),
        blocks: "256",
        keys: 1860,
        scripts: 10,
        lines: 60,
        more: 20,
        deletes: true,
        crashes: 20,
        failing: 0,
    },
    Walk {
        seed: 81,
        disks: 4,
        sessions: 3,
        pages: ("64", 64),
        blocks: "256",
        keys: 1860,
        scripts: 10,
        lines: 60,
        more: 20,
        deletes: true,
        crashes: 20,
        failing: 0,
    },
    Walk {
        seed: 82,
        disks: 4,
        sessions: 3,
        pages: ("64", 64),
        blocks: "256",
        keys: 1860,
        scripts: 10,
        lines: 60,
        more: 20,
        deletes: true,
        crashes: 20,
        failing: 0,
    },
];

// How many keys a transaction puts that makes a tree.
const PUTS: u64 = 60;

// A run makes fewer calls of an area than these.
const MOST: u64 = 2000;

// A script over a tree asks for keys that are less than this apart.
const NEAR: u64 = 90;

// Keys that share their lock rows where there are sixteen of these, and not else.
const KEYS: [u64; 10] = [0, 1, 2, 3, 4, 16, 17, 18, 19, 32];

static SESSIONS: [&str; 16] = [
    "1", "2", "3", "4", "5", "6", "7", "8", "9", "10", "11", "12", "13", "14", "15", "16",
];

// How many commits of a session are flushed at once.
const GROUPS: [(&str, u64); 3] = [("1", 1), ("2", 2), ("64", 64)];

const ROWS: [(&str, usize); 2] = [("16", 16), ("256", 256)];

// A number below a bound.
fn any_below(random: &mut Pcg32, bound: u64) -> u64 {
    if bound == 0 {
        return 0;
    }
    u64::from(random.next_word()) % bound
}

// One of so many sessions.
fn any_session(random: &mut Pcg32, sessions: u32) -> u32 {
    if sessions == 0 {
        return 1;
    }
    (random.next_word() % sessions).saturating_add(1)
}

fn any_choice(random: &mut Pcg32) -> Choice {
    match random.next_word() % 4 {
        0 => Choice::NoBytes,
        1 => Choice::FirstHalf,
        2 => Choice::Zeros,
        _ => Choice::AllBytes,
    }
}

// A scan, also one whose first key is above its last one, or above all keys.
fn any_scan(random: &mut Pcg32, near: u64) -> Call {
    let from = near.saturating_add(any_below(random, 40));
    let to = from.saturating_add(any_below(random, 20)).saturating_sub(2);
    Call::Scan { from, to }
}

// One of a few keys, or in a tree one near by.
fn any_key(random: &mut Pcg32, walk: &Walk, near: u64) -> u64 {
    if walk.keys == 0 {
        let place = any_below(random, KEYS.len() as u64);
        return KEYS.get(place as usize).copied().unwrap_or(0);
    }
    near.saturating_add(any_below(random, NEAR))
}

fn any_call(random: &mut Pcg32, walk: &Walk, near: u64, is_open: bool, is_second: bool) -> Call {
    let key = any_key(random, walk, near);
    let value = any_below(random, 1000);
    // Mostly a session that has no transaction begins one.
    if !is_open && random.next_word() % 16 != 0 {
        return Call::Begin;
    }
    if walk.deletes && is_second {
        return Call::Del { key };
    }
    match random.next_word() % 32 {
        0..=4 => Call::Get { key },
        5..=6 => any_scan(random, near),
        7..=17 => Call::Put { key, value },
        18..=20 => Call::Del { key },
        21..=28 => Call::Commit,
        29..=30 => Call::Abort,
        _ => Call::Begin,
    }
}

// Adds the lines that put the even keys of a tree.
fn add_keys<R: Abort>(rt: &R, rules: &mut Rules, keys: u64) {
    for place in 0..keys {
        if place % PUTS == 0 {
            rules.add(rt, 1, Call::Begin);
        }
        let key = place.saturating_mul(2);
        rules.add(rt, 1, Call::Put { key, value: place });
        if place % PUTS == PUTS - 1 {
            rules.add(rt, 1, Call::Commit);
        }
    }
    rules.add_sync(rt);
}

// A script: mostly a session has some lines in a row. There is a sync in 32 lines, and one at the end.
fn add_lines<R: Abort>(rt: &R, random: &mut Pcg32, rules: &mut Rules, walk: &Walk, sessions: u32) {
    let mut session = 1;
    let near = any_below(random, walk.keys.saturating_mul(2));
    let lines = walk
        .lines
        .saturating_add(walk.more.saturating_mul(sessions));
    for line in 0..lines {
        let pick = random.next_word() % 32;
        if pick == 0 {
            rules.add_sync(rt);
        } else {
            if pick < 14 {
                session = any_session(random, sessions);
            }
            let is_second = line % 2 == 1;
            let call = any_call(random, walk, near, rules.is_open(session), is_second);
            rules.add(rt, session, call);
        }
    }
    rules.add_sync(rt);
}

// A crash: seldom in the opening, which had so many calls.
fn any_crash(random: &mut Pcg32, opening: u64, end: u64) -> Crash {
    let last = opening.saturating_sub(2);
    let moment = if random.next_word() % 16 == 0 {
        any_below(random, opening)
    } else {
        last.saturating_add(any_below(random, end.saturating_sub(last).saturating_add(1)))
    };
    Crash {
        moment,
        one: any_choice(random),
        other: any_choice(random),
        mask: random.next_word(),
    }
}

// The same crash, by the moments of the rules.
fn counted(crash: &Crash, opening: u64) -> Crash {
    let moment = crash.moment.saturating_add(OPENED).saturating_sub(opening);
    Crash { moment, ..*crash }
}

// The calls of an opening of so many sessions, pages and blocks, but for the write of a page that has changed, and the second read of a slot that an
// opening which was cut off has saved: a sync of each area, two slots of the master and of each page, the blocks of each log up to the first
// that does not count, a sync of the pages, the master and its sync.
fn opening_of(sessions: u32, pages: u64, blocks: u64) -> u64 {
    let logs = u64::from(sessions);
    (2 + 2 + 3u64)
        .saturating_add(pages.saturating_mul(2))
        .saturating_add(logs)
        .saturating_add(logs)
        .saturating_add(blocks)
}

// A run, and what the rules say of it.
#[derive(Drop)]
struct Scene<'a> {
    rules: &'a Rules,
    before: &'a Left,
    disk: &'a MemDisk,
    opening: u64,
}

// What the rules say that a crash leaves.
fn left_behind<R: Abort>(rt: &R, scene: &Scene<'_>, crash: &Crash) -> Left {
    let rules = scene.rules;
    rules
        .left(rt, scene.before, &counted(crash, scene.opening))
        .expect(rt, "what was told durable")
}

// None: all is left that was written.
fn at_end(moment: u64) -> Crash {
    Crash {
        moment,
        one: Choice::AllBytes,
        other: Choice::AllBytes,
        mask: 0,
    }
}

// Crashes the run. The next one tells the winners, and so does a dump, which prints the map.
fn crash_once<R: Threads + Wait + Sync + Abort>(
    rt: &R,
    alloc: Global,
    scene: &Scene<'_>,
    crash: &Crash,
) -> (MemDisk, Left) {
    let left = left_behind(rt, scene, crash);
    let disk = crashed_apart(
        rt,
        alloc,
        scene.disk,
        crash.moment,
        crash.one,
        crash.other,
        crash.mask,
    );
    let next = run_command(rt, alloc, &RUN, "", at_rest(rt, &disk));
    let first = left.first_line(rt, alloc);
    expect(
        rt,
        "the first line behind a crash",
        next.printed() == first.as_str(),
    );
    let pairs = pairs_of(rt, alloc, &left.map);
    dumped(
        rt,
        alloc,
        "the map behind a crash",
        at_rest(rt, &disk),
        &first,
        &pairs,
    );
    (disk, left)
}

// The replay of what was asked and answered, from the map at the opening.
fn replayed<R: Abort>(rt: &R, alloc: Global, before: &Left, rules: &Rules) -> BTreeMap<u64, u64> {
    let start = before.copied(rt, alloc).map;
    let end = Replay::run(alloc, start, &rules.transcript);
    expect(rt, "the replay of a run", end.is_ok());
    match end {
        Ok(map) => map,
        Err(_) => BTreeMap::new(alloc),
    }
}

/// Runs a script with 256 lock rows, each commit flushed, and ends the test where it prints other lines than the rules say. What it leaves.
pub(crate) fn run_whole<R: Threads + Wait + Sync + Abort>(
    rt: &R,
    alloc: Global,
    name: &str,
    rules: &Rules,
    before: &Left,
    disk: MemDisk,
) -> (MemDisk, Left) {
    let done = run_command(rt, alloc, &RUN, rules.text.as_str(), disk);
    expect(
        rt,
        name,
        done.status == 0 && done.printed() == rules.printed.as_str(),
    );
    let left = rules
        .left(rt, before, &at_end(NEVER))
        .expect(rt, "what was told durable");
    (at_rest(rt, &done.disk), left)
}

// A disk, how many sessions it has, and what stands there.
#[derive(Drop)]
struct Place {
    sessions: u32,
    disk: MemDisk,
    left: Left,
}

// A new disk with its tree.
fn grown<R: Threads + Wait + Sync + Abort>(
    rt: &R,
    alloc: Global,
    walk: &Walk,
    sessions: u32,
) -> Place {
    let place = sessions.saturating_sub(1) as usize;
    let word = SESSIONS.get(place).copied().unwrap_or("1");
    let format = [
        "lean",
        "format",
        "--workers",
        word,
        "--pages",
        walk.pages.0,
        "--blocks",
        walk.blocks,
    ];
    let disk = formatted(rt, alloc, &format);
    let left = Left::new(rt, alloc, walk.pages.1);
    if walk.keys == 0 {
        return Place {
            sessions,
            disk,
            left,
        };
    }
    let mut rules = Rules::open(rt, alloc, &left, sessions, 256, 1);
    add_keys(rt, &mut rules, walk.keys);
    let (disk, left) = run_whole(rt, alloc, "a run that makes a tree", &rules, &left, disk);
    Place {
        sessions,
        disk,
        left,
    }
}

// How many commits these lines tell durable.
fn count_durable(lines: &str) -> usize {
    let mut count = 0usize;
    for line in lines.lines() {
        if line.contains(" durable ") {
            count = count.saturating_add(1);
        }
    }
    count
}

// A call of an area fails. The run ends with status 6, its lines are the first of those that the rules say, and behind a crash the map is that behind as many commits as
// the next run tells, and each that was told durable is one of these. Whether the run made the call.
fn fail_at<R: Threads + Wait + Sync + Abort>(
    rt: &R,
    alloc: Global,
    random: &mut Pcg32,
    scene: &Scene<'_>,
    command: &[&str],
    area: u32,
    call: u64,
) -> bool {
    let rules = scene.rules;
    let mut faulty = at_rest(rt, scene.disk);
    faulty.fail_at(area, [call].to_vec(alloc).expect(rt, MEMORY));
    let run = run_command(rt, alloc, command, rules.text.as_str(), faulty);
    if run.status == 0 {
        return false;
    }
    expect(rt, "the status of a fault", run.status == 6);
    let lines = run
        .printed()
        .strip_suffix("lean: disk fault\n")
        .expect(rt, "the line of a fault");
    let is_met = rules.printed.as_str().starts_with(lines);
    expect(rt, "the lines before a fault", is_met);
    let left = crashed(rt, &run.disk, run.disk.moment(), any_choice(random));
    let dump = run_command(rt, alloc, &["lean", "dump"], "", left);
    let (first, pairs) = dump
        .printed()
        .split_once('\n')
        .expect(rt, "the first line behind a fault");
    let mut map = scene.before.copied(rt, alloc).map;
    // Where the opening failed, the winners are those of the run before it.
    let mut is_found = lines.len() == 0 && pairs == pairs_of(rt, alloc, &map).as_str();
    let told = count_durable(lines);
    for count in 0..=rules.commits.len() {
        let words = format!(in alloc; " winners {count} undone ").expect(rt, MEMORY);
        if lines.len() > 0 && first.contains(words.as_str()) {
            is_found = told <= count && pairs == pairs_of(rt, alloc, &map).as_str();
        }
        if let Some(commit) = rules.commits.get(count) {
            rules.redo(rt, &mut map, *commit);
        }
    }
    expect(rt, "the map behind a fault", is_found);
    true
}

// Each call of the disk behind the reads of the opening fails once.
fn fail_each<R: Threads + Wait + Sync + Abort>(
    rt: &R,
    alloc: Global,
    random: &mut Pcg32,
    scene: &Scene<'_>,
    command: &[&str],
    walk: &Walk,
) {
    for area in 0..3 {
        let first = if area == 1 {
            (walk.pages.1 as u64).saturating_mul(2)
        } else {
            1
        };
        let mut is_made = true;
        for call in first..first.saturating_add(MOST) {
            is_made = is_made && fail_at(rt, alloc, random, scene, command, area, call);
        }
        expect(rt, "the calls of an area", !is_made);
    }
}

// A script on a disk, and its crashes. What the last one leaves.
fn run_once<R: Threads + Wait + Sync + Abort>(
    rt: &R,
    alloc: Global,
    random: &mut Pcg32,
    walk: &Walk,
    place: &Place,
    is_failing: bool,
) -> Place {
    let sessions = place.sessions;
    let before = &place.left;
    let group = GROUPS[(random.next_word() % 3) as usize];
    let rows = ROWS[(random.next_word() % 2) as usize];
    let mut rules = Rules::open(rt, alloc, before, sessions, rows.1, group.1);
    add_lines(rt, random, &mut rules, walk, sessions);
    let command = ["lean", "run", "--group", group.0, "--rows", rows.0];
    let text = rules.text.as_str();
    let done = run_command(rt, alloc, &command, text, at_rest(rt, &place.disk));
    expect(
        rt,
        "the lines of a run",
        done.status == 0 && done.printed() == rules.printed.as_str(),
    );
    if walk.keys > 0 {
        let few = [
            "lean", "run", "--frames", "32", "--group", group.0, "--rows", rows.0,
        ];
        let other = run_command(rt, alloc, &few, text, at_rest(rt, &place.disk));
        expect(
            rt,
            "the lines of a run in few frames",
            other.status == 0 && other.printed() == done.printed(),
        );
    }
    if is_failing {
        let scene = Scene {
            rules: &rules,
            before,
            disk: &place.disk,
            opening: 0,
        };
        fail_each(rt, alloc, random, &scene, &command, walk);
    }
    let end = done.disk.moment();
    let opening = end.saturating_add(OPENED).saturating_sub(rules.moment);
    let pages = walk.pages.1 as u64;
    let least = opening_of(sessions, pages, before.blocks);
    let changed = if walk.keys > 0 { pages } else { 1 };
    expect(
        rt,
        "the calls of a run",
        least <= opening && opening <= least.saturating_add(changed.saturating_mul(2)),
    );
    let pairs = pairs_of(rt, alloc, &replayed(rt, alloc, before, &rules));
    let scene = Scene {
        rules: &rules,
        before,
        disk: &done.disk,
        opening,
    };
    let first = left_behind(rt, &scene, &at_end(end)).first_line(rt, alloc);
    dumped(
        rt,
        alloc,
        "the map behind a run",
        at_rest(rt, &done.disk),
        &first,
        &pairs,
    );
    for _ in 1..walk.crashes {
        crash_once(rt, alloc, &scene, &any_crash(random, opening, end));
    }
    let (disk, left) = crash_once(rt, alloc, &scene, &any_crash(random, opening, end));
    Place {
        sessions,
        disk,
        left,
    }
}

// Goes through the scripts of these disks.
fn go<R: Threads + Wait + Sync + Abort>(rt: &R, alloc: Global, walk: &Walk) {
    let mut random = Pcg32::new(walk.seed, 4);
    let mut failed = 0u64;
    for _ in 0..walk.disks {
        let sessions = any_session(&mut random, walk.sessions);
        let mut place = grown(rt, alloc, walk, sessions);
        for _ in 0..walk.scripts {
            let is_failing = sessions == 1 && failed < walk.failing;
            place = run_once(rt, alloc, &mut random, walk, &place, is_failing);
            if is_failing {
                failed = failed.saturating_add(1);
            }
        }
    }
}

// Five tests, since each has its time: five times the disks of the walk, from other seeds.
#[test]
fn random_scripts_of_all_sessions_print_what_the_rules_say(rt: HostRuntime) {
    go(&rt, rt.alloc(), &WALKS[0]);
}

#[test]
fn second_scripts_of_all_sessions_print_what_the_rules_say(rt: HostRuntime) {
    let walk = Walk {
        seed: 38,
        ..WALKS[0]
    };
    go(&rt, rt.alloc(), &walk);
}

#[test]
fn third_scripts_of_all_sessions_print_what_the_rules_say(rt: HostRuntime) {
    let walk = Walk {
        seed: 39,
        ..WALKS[0]
    };
    go(&rt, rt.alloc(), &walk);
}

#[test]
fn fourth_scripts_of_all_sessions_print_what_the_rules_say(rt: HostRuntime) {
    let walk = Walk {
        seed: 40,
        ..WALKS[0]
    };
    go(&rt, rt.alloc(), &walk);
}

#[test]
fn fifth_scripts_of_all_sessions_print_what_the_rules_say(rt: HostRuntime) {
    let walk = Walk {
        seed: 41,
        ..WALKS[0]
    };
    go(&rt, rt.alloc(), &walk);
}

// A test for each walk, since each has its time.
#[test]
fn first_scripts_over_trees_of_16_pages_print_what_the_rules_say(rt: HostRuntime) {
    go(&rt, rt.alloc(), &WALKS[1]);
}

#[test]
fn second_scripts_over_trees_of_16_pages_print_what_the_rules_say(rt: HostRuntime) {
    go(&rt, rt.alloc(), &WALKS[2]);
}

#[test]
fn first_scripts_over_trees_of_32_pages_print_what_the_rules_say(rt: HostRuntime) {
    go(&rt, rt.alloc(), &WALKS[3]);
}

#[test]
fn second_scripts_over_trees_of_32_pages_print_what_the_rules_say(rt: HostRuntime) {
    go(&rt, rt.alloc(), &WALKS[4]);
}

#[test]
fn third_scripts_over_trees_of_32_pages_print_what_the_rules_say(rt: HostRuntime) {
    go(&rt, rt.alloc(), &WALKS[5]);
}

#[test]
fn first_scripts_over_trees_of_64_pages_print_what_the_rules_say(rt: HostRuntime) {
    go(&rt, rt.alloc(), &WALKS[6]);
}

#[test]
fn second_scripts_over_trees_of_64_pages_print_what_the_rules_say(rt: HostRuntime) {
    go(&rt, rt.alloc(), &WALKS[7]);
}

#[test]
fn third_scripts_over_trees_of_64_pages_print_what_the_rules_say(rt: HostRuntime) {
    go(&rt, rt.alloc(), &WALKS[8]);
}

#[test]
fn fourth_scripts_over_trees_of_64_pages_print_what_the_rules_say(rt: HostRuntime) {
    go(&rt, rt.alloc(), &WALKS[9]);
}
