// What is found behind a crash: which transactions it kept, and the map.
use crate::cases::expect;
use crate::plain::{Commit, Left, Plain, SESSIONS, WITNESS, copied, set};
use crate::runs::{MEMORY, Outcome, at_rest, run_command};
use lean_disk::MemDisk;
use std::alloc::{AllocError, Global};
use std::collections::BTreeMap;
use std::process::Abort;
use std::sync::Wait;
use std::thread::Threads;

// A run that is judged: what was left before it, and its plain map.
#[derive(Drop)]
pub(crate) struct Scene<'a> {
    pub before: &'a Left,
    pub plain: &'a Plain,
}

/// The lines of a map in a dump.
pub(crate) fn pairs_of<R: Abort>(rt: &R, alloc: Global, map: &BTreeMap<u64, u64>) -> String {
    let mut lines = String::new(alloc);
    for (key, value) in map {
        let line = format!(in alloc; "pair {key} {value}\n").expect(rt, MEMORY);
        lines.push_str(&line).expect(rt, MEMORY);
    }
    lines.push_str("end\n").expect(rt, MEMORY);
    lines
}

/// The number behind this word in a line, up to a space.
pub(crate) fn number_behind(line: &str, word: &str) -> Option<u64> {
    let rest = line.strip_prefix(word)?;
    let mut number = 0u64;
    for byte in rest.bytes() {
        if byte == b' ' {
            break;
        }
        number = number
            .saturating_mul(10)
            .saturating_add(u64::from(byte.saturating_sub(b'0')));
    }
    Some(number)
}

// The numbers of the newest transactions of each session of this run that a dump has, 0 where it has none.
fn newest_of<R: Abort>(rt: &R, plain: &Plain, printed: &str) -> Vec<u64> {
    let mut newest = vec![in plain.alloc; 0u64; SESSIONS as usize].expect(rt, MEMORY);
    for line in printed.lines() {
        let (Some(key), Some((_, value))) = (number_behind(line, "pair "), line.rsplit_once(' '))
        else {
            continue;
        };
        if key > WITNESS {
            let place = key.saturating_sub(WITNESS).saturating_sub(1);
            let mark = number_behind(value, "").unwrap_or(0);
            if let Some(number) = newest.get_mut(place as usize) {
                *number = mark.saturating_sub(plain.mark(0));
            }
        }
    }
    newest
}

// Whether the commit is one of those that were kept.
fn is_kept(newest: &[u64], commit: &Commit) -> bool {
    let last = newest.get(commit.session.saturating_sub(1) as usize);
    commit.number <= last.copied().unwrap_or(0)
}

// The map behind those that were kept, in the order of their commits, and how many there are.
fn map_behind<R: Abort>(rt: &R, scene: &Scene<'_>, newest: &[u64]) -> (BTreeMap<u64, u64>, u64) {
    let mut map = copied(scene.plain.alloc, &scene.before.map).expect(rt, MEMORY);
    let mut count = 0u64;
    for commit in &scene.plain.commits {
        if is_kept(newest, commit) {
            count = count.saturating_add(1);
            for write in &commit.writes {
                set(&mut map, write.key, write.value).expect(rt, MEMORY);
            }
        }
    }
    (map, count)
}

// What is left where these were kept.
fn left_behind<R: Abort>(
    rt: &R,
    scene: &Scene<'_>,
    newest: &[u64],
    map: BTreeMap<u64, u64>,
) -> Left {
    let mut kept = Vec::new(scene.plain.alloc);
    for commit in &scene.plain.commits {
        kept.push(is_kept(newest, commit)).expect(rt, MEMORY);
    }
    let entries = scene
        .before
        .entries_behind(scene.plain, &kept)
        .expect(rt, MEMORY);
    Left { map, entries }
}

// Whether each that was kept read and overwrote only what those have written that were kept too, or what was there before.
fn is_whole(scene: &Scene<'_>, newest: &[u64]) -> Result<bool, AllocError> {
    let mut lost = BTreeMap::new(scene.plain.alloc);
    for commit in &scene.plain.commits {
        let is_kept = is_kept(newest, commit);
        if is_kept {
            for key in &commit.held {
                if lost.get(key).is_some() {
                    return Ok(false);
                }
            }
        } else {
            for write in &commit.writes {
                lost.insert(write.key, true)?;
            }
        }
    }
    Ok(true)
}

// Whether the line tells a transaction of a session durable that was kept, or tells of something else.
fn is_durable_kept(newest: &[u64], line: &str) -> bool {
    for session in 1..=SESSIONS {
        let word = match session {
            1 => "1 durable 1.",
            2 => "2 durable 2.",
            _ => "3 durable 3.",
        };
        if let Some(number) = number_behind(line, word) {
            let last = newest.get(session.saturating_sub(1) as usize);
            return number <= last.copied().unwrap_or(0);
        }
    }
    true
}

// Whether each that was told durable by a moment was kept.
fn are_durable_kept(newest: &[u64], run: &Outcome, moment: u64) -> bool {
    for (place, line) in run.printed().lines().enumerate() {
        let told = run.sink.moments.get(place).copied().unwrap_or(0);
        if told <= moment && !is_durable_kept(newest, line) {
            return false;
        }
    }
    true
}

/// Ends the test where a dump of what a crash of the run has left at a moment is not the map behind a set of its transactions, in the order of their commits, that
/// holds every one that was told durable, and each whose write a member read or overwrote; and the first line tells how many these are. What is left.
pub(crate) fn judge<R: Threads + Wait + Sync + Abort>(
    rt: &R,
    alloc: Global,
    scene: &Scene<'_>,
    run: &Outcome,
    moment: u64,
    left: &MemDisk,
) -> Left {
    let dump = run_command(rt, alloc, &["lean", "dump"], "", at_rest(rt, left));
    expect(rt, "a dump behind a crash", dump.status == 0);
    let newest = newest_of(rt, scene.plain, dump.printed());
    let (map, count) = map_behind(rt, scene, &newest);
    expect(
        rt,
        "what was read is there",
        is_whole(scene, &newest).expect(rt, MEMORY),
    );
    let is_met = are_durable_kept(&newest, run, moment);
    expect(rt, "what was told durable is there", is_met);
    let mut lines = dump.printed().split('\n');
    let first = lines.next().unwrap_or("");
    let counted = format!(in alloc; " winners {count} undone ").expect(rt, MEMORY);
    // In an opening the winners of the run before it are told once more.
    let opened = if run.printed().starts_with("open ") {
        run.sink.moments.first().copied().unwrap_or(u64::MAX)
    } else {
        u64::MAX
    };
    expect(
        rt,
        "the first line behind a crash",
        moment < opened || first.contains(counted.as_str()),
    );
    let pairs = pairs_of(rt, alloc, &map);
    expect(
        rt,
        "the map behind a crash",
        dump.printed().ends_with(pairs.as_str()),
    );
    left_behind(rt, scene, &newest, map)
}
