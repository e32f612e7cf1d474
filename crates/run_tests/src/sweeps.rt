// Runs that are crashed at each moment, and runs of which each call of the disk fails: what is found then.
use crate::cases::expect;
use crate::fours::{FOUR, FOUR_MAPS, FOUR_OPENED_MAPS, FOUR_OPENING};
use crate::runs::{
    FORMAT, FORMAT_FOUR, FORMAT_TWO, MEMORY, Outcome, at_rest, copies_of, count_lines, count_up_to,
    crashed, crashed_apart, dumped, failing, formatted, run_command, run_into, run_script,
};
use crate::scripts::{
    ABORT, ABORT_MAPS, Apart, CONFLICT, CONFLICT_MAPS, Crashes, DUMP, Failures, Find, LONG_ABORT,
    LONG_ABORT_MAPS, OPENING, PUT, PUT_MAPS, SCAN, SCAN_CONFLICT, SCAN_MAPS, SIX, SIX_MAPS, SPLITS,
    SYNC, SYNC_MAPS, Script, Sweep, TWO_MAPS, TWO_TEXT,
};
use crate::trees::{grown, maps_of_splits};
use lean_disk::{Choice, MemDisk};
use lean_shell::MemSink;
use std::alloc::Global;
use std::process::Abort;
use std::sync::Wait;
use std::thread::Threads;

const CHOICES: [Choice; 4] = [
    Choice::NoBytes,
    Choice::AllBytes,
    Choice::FirstHalf,
    Choice::Zeros,
];

const FAULT: &str = "lean: disk fault\n";

// A script, the disk that its runs begin on, its maps, and the moments at which its lines go out.
#[derive(Drop)]
struct Scene<'a> {
    script: &'a Script,
    disk: &'a MemDisk,
    maps: &'a [String],
    moments: &'a [u64],
}

// The moment at which each line of a run goes out.
fn moments_of<R: Threads + Wait + Sync + Abort>(
    rt: &R,
    alloc: Global,
    script: &Script,
    disk: &MemDisk,
) -> Vec<u64> {
    let mut moments = Vec::new(alloc);
    for line in 1..=count_lines(script.lines) {
        let mut sink = MemSink::new(alloc);
        sink.fail_at([line].to_vec(alloc).expect(rt, MEMORY));
        let cut = run_into(
            rt,
            alloc,
            script.command,
            script.text,
            at_rest(rt, disk),
            sink,
        );
        moments
            .push(cut.disk.moment().saturating_add(1))
            .expect(rt, MEMORY);
    }
    moments
}

// The place among the finds of the one that prints so.
fn place_of(finds: &[Find], printed: &str) -> usize {
    for place in 0..finds.len() {
        if finds[place].lines == printed {
            return place;
        }
    }
    finds.len()
}

// The first line of what a run printed.
fn first_line(printed: &str) -> &str {
    printed.split_inclusive('\n').next().unwrap_or("")
}

// The first line behind an opening that told this one: no record was left.
fn line_behind<R: Abort>(rt: &R, alloc: Global, first: &str) -> String {
    let word = first.split(' ').nth(1).unwrap_or("");
    let generation = word.parse::<u64>().unwrap_or(0).saturating_add(1);
    format!(in alloc; "open {generation} winners 0 undone 0\n").expect(rt, MEMORY)
}

// Counts what is found on a disk that a crash at a moment left, of a run that put so many lines.
fn count_found<R: Threads + Wait + Sync + Abort>(
    rt: &R,
    alloc: Global,
    scene: &Scene<'_>,
    name: &str,
    left: MemDisk,
    lines: u64,
    moment: u64,
    tally: &mut [u64],
) {
    let out = count_up_to(scene.moments, moment).min(lines);
    let out_before = count_up_to(scene.moments, moment.saturating_sub(1)).min(lines);
    let next = run_script(rt, alloc, scene.script.next, at_rest(rt, &left));
    let place = place_of(scene.script.finds, next.printed());
    let find = scene.script.finds.get(place).expect(rt, name);
    expect(
        rt,
        name,
        next.status == 0 && find.from <= out_before && out < find.below,
    );
    let map = scene.maps.get(find.map).expect(rt, name);
    let first = first_line(find.lines);
    let second = line_behind(rt, alloc, first);
    let again = dumped(rt, alloc, name, left, first, map);
    dumped(rt, alloc, name, again, &second, map);
    dumped(rt, alloc, name, next.disk, &second, map);
    if let Some(count) = tally.get_mut(place) {
        *count = count.saturating_add(1);
    }
}

// Runs the script where a call of an area fails.
fn run_failing<R: Threads + Wait + Sync + Abort>(
    rt: &R,
    alloc: Global,
    scene: &Scene<'_>,
    area: u32,
    call: u64,
) -> Outcome {
    let disk = failing(rt, alloc, scene.disk, area, call);
    run_command(rt, alloc, scene.script.command, scene.script.text, disk)
}

fn is_whole(script: &Script, run: &Outcome) -> bool {
    run.status == 0 && run.printed() == script.lines
}

// Whether a run ended as one whose disk has failed, behind whole lines.
fn is_faulty(script: &Script, run: &Outcome) -> bool {
    match run.printed().strip_suffix(FAULT) {
        Some(prefix) => {
            run.status == 6
                && script.lines.starts_with(prefix)
                && (prefix.is_empty() || prefix.ends_with('\n'))
        }
        None => false,
    }
}

// Crashes a whole run at each moment.
fn sweep<R: Threads + Wait + Sync + Abort>(
    rt: &R,
    alloc: Global,
    scene: &Scene<'_>,
    sweep: &Sweep,
) {
    let name = sweep.name;
    let disk = at_rest(rt, scene.disk);
    let run = run_command(rt, alloc, scene.script.command, scene.script.text, disk);
    expect(rt, name, is_whole(scene.script, &run));
    let mut tally = vec![in alloc; 0u64; scene.script.finds.len()].expect(rt, MEMORY);
    let lines = count_lines(scene.script.lines);
    for moment in 0..=run.disk.moment() {
        let mut left = crashed(rt, &run.disk, moment, sweep.choice);
        for _ in 1..sweep.times {
            let next = run_command(rt, alloc, scene.script.command, scene.script.text, left);
            left = crashed(rt, &next.disk, moment, sweep.choice);
        }
        count_found(rt, alloc, scene, name, left, lines, moment, &mut tally);
    }
    expect(rt, name, tally.as_slice() == sweep.found);
}

// In how many ways so many areas are left.
fn ways_of(areas: &[u32]) -> u32 {
    let mut ways = 1u32;
    for _ in areas {
        ways = ways.saturating_mul(2);
    }
    ways
}

// One of these ways: the areas that are left by the other choice, each a bit.
fn mask_of(areas: &[u32], way: u32) -> u32 {
    let mut mask = 0;
    let mut rest = way;
    for area in areas {
        if rest % 2 == 1 && *area < 32 {
            mask |= 1u32 << *area;
        }
        rest /= 2;
    }
    mask
}

// Crashes a whole run at each moment, in all ways.
fn sweep_apart<R: Threads + Wait + Sync + Abort>(
    rt: &R,
    alloc: Global,
    scene: &Scene<'_>,
    apart: &Apart,
) {
    let name = apart.name;
    let disk = at_rest(rt, scene.disk);
    let run = run_command(rt, alloc, scene.script.command, scene.script.text, disk);
    expect(rt, name, is_whole(scene.script, &run));
    let mut tally = vec![in alloc; 0u64; scene.script.finds.len()].expect(rt, MEMORY);
    let lines = count_lines(scene.script.lines);
    for moment in 0..=run.disk.moment() {
        for way in 0..ways_of(apart.areas) {
            let mask = mask_of(apart.areas, way);
            let left = crashed_apart(rt, alloc, &run.disk, moment, apart.one, apart.other, mask);
            count_found(rt, alloc, scene, name, left, lines, moment, &mut tally);
        }
    }
    expect(rt, name, tally.as_slice() == apart.found);
}

// Has each call of an area fail, and crashes the run then.
fn fail_each<R: Threads + Wait + Sync + Abort>(
    rt: &R,
    alloc: Global,
    scene: &Scene<'_>,
    failures: &Failures,
) {
    let name = failures.name;
    let mut tally = vec![in alloc; 0u64; scene.script.finds.len()].expect(rt, MEMORY);
    for call in 1..=failures.calls {
        let run = run_failing(rt, alloc, scene, failures.area, call);
        expect(rt, name, is_faulty(scene.script, &run));
        let lines = count_lines(run.printed()).saturating_sub(1);
        expect(rt, name, lines <= failures.out);
        let end = run.disk.moment();
        match failures.crashes {
            Crashes::AtEnd => {
                for choice in CHOICES {
                    let left = crashed(rt, &run.disk, end, choice);
                    count_found(rt, alloc, scene, name, left, lines, end, &mut tally);
                }
            }
            Crashes::Apart(areas) => {
                for way in 0..ways_of(areas) {
                    let mask = mask_of(areas, way);
                    let (one, other) = (Choice::NoBytes, Choice::AllBytes);
                    let left = crashed_apart(rt, alloc, &run.disk, end, one, other, mask);
                    count_found(rt, alloc, scene, name, left, lines, end, &mut tally);
                }
            }
            Crashes::Each(choice) => {
                for moment in 0..=end {
                    let left = crashed(rt, &run.disk, moment, choice);
                    count_found(rt, alloc, scene, name, left, lines, moment, &mut tally);
                }
            }
        }
    }
    let run = run_failing(
        rt,
        alloc,
        scene,
        failures.area,
        failures.calls.saturating_add(1),
    );
    expect(rt, name, is_whole(scene.script, &run));
    expect(rt, name, tally.as_slice() == failures.found);
}

// Goes through the tables of a script.
fn go<R: Threads + Wait + Sync + Abort>(
    rt: &R,
    alloc: Global,
    script: &Script,
    disk: &MemDisk,
    maps: &[String],
) {
    let moments = moments_of(rt, alloc, script, disk);
    let scene = Scene {
        script,
        disk,
        maps,
        moments: &moments,
    };
    for row in script.sweeps {
        sweep(rt, alloc, &scene, row);
    }
    for row in script.aparts {
        sweep_apart(rt, alloc, &scene, row);
    }
    for row in script.failures {
        fail_each(rt, alloc, &scene, row);
    }
}

/// The disk that a crash leaves after two transactions, with all that was written.
pub(crate) fn disk_of_two<R: Threads + Wait + Sync + Abort>(rt: &R, alloc: Global) -> MemDisk {
    let new = formatted(rt, alloc, &FORMAT);
    at_rest(rt, &run_script(rt, alloc, TWO_TEXT, new).disk)
}

#[test]
fn what_one_put_told_is_kept(rt: HostRuntime) {
    let new = formatted(&rt, rt.alloc(), &FORMAT);
    go(
        &rt,
        rt.alloc(),
        &PUT,
        &new,
        &copies_of(&rt, rt.alloc(), &PUT_MAPS),
    );
}

#[test]
fn what_six_transactions_told_is_kept(rt: HostRuntime) {
    let new = formatted(&rt, rt.alloc(), &FORMAT);
    go(
        &rt,
        rt.alloc(),
        &SIX,
        &new,
        &copies_of(&rt, rt.alloc(), &SIX_MAPS),
    );
}

#[test]
fn what_dels_and_aborts_told_is_kept(rt: HostRuntime) {
    let new = formatted(&rt, rt.alloc(), &FORMAT);
    let maps = copies_of(&rt, rt.alloc(), &ABORT_MAPS);
    go(&rt, rt.alloc(), &ABORT, &new, &maps);
    let maps = copies_of(&rt, rt.alloc(), &LONG_ABORT_MAPS);
    go(&rt, rt.alloc(), &LONG_ABORT, &new, &maps);
}

#[test]
fn what_scans_told_is_kept(rt: HostRuntime) {
    let new = formatted(&rt, rt.alloc(), &FORMAT);
    let maps = copies_of(&rt, rt.alloc(), &SCAN_MAPS);
    go(&rt, rt.alloc(), &SCAN, &new, &maps);
}

#[test]
fn what_two_sessions_told_is_kept(rt: HostRuntime) {
    let new = formatted(&rt, rt.alloc(), &FORMAT_TWO);
    let maps = copies_of(&rt, rt.alloc(), &SYNC_MAPS);
    go(&rt, rt.alloc(), &SYNC, &new, &maps);
    let maps = copies_of(&rt, rt.alloc(), &CONFLICT_MAPS);
    go(&rt, rt.alloc(), &CONFLICT, &new, &maps);
    go(&rt, rt.alloc(), &SCAN_CONFLICT, &new, &maps);
}

#[test]
fn what_four_sessions_told_is_kept(rt: HostRuntime) {
    let new = formatted(&rt, rt.alloc(), &FORMAT_FOUR);
    let maps = copies_of(&rt, rt.alloc(), &FOUR_MAPS);
    go(&rt, rt.alloc(), &FOUR, &new, &maps);
}

// Behind the third log's flush, with the tails of the second log and the fourth.
#[test]
fn an_opening_of_four_sessions_that_stops_changes_no_map(rt: HostRuntime) {
    let alloc = rt.alloc();
    let new = formatted(&rt, alloc, &FORMAT_FOUR);
    let run = run_command(&rt, alloc, FOUR.command, FOUR.text, new);
    let disk = crashed(&rt, &run.disk, 154, Choice::AllBytes);
    let maps = copies_of(&rt, alloc, &FOUR_OPENED_MAPS);
    go(&rt, alloc, &FOUR_OPENING, &disk, &maps);
}

#[test]
fn an_opening_or_a_dump_that_stops_changes_no_map(rt: HostRuntime) {
    let disk = disk_of_two(&rt, rt.alloc());
    let maps = copies_of(&rt, rt.alloc(), &TWO_MAPS);
    go(&rt, rt.alloc(), &OPENING, &disk, &maps);
    go(&rt, rt.alloc(), &DUMP, &disk, &maps);
}

#[test]
fn what_splits_told_is_kept(rt: HostRuntime) {
    let disk = grown(&rt, rt.alloc());
    let maps = maps_of_splits(&rt, rt.alloc());
    go(&rt, rt.alloc(), &SPLITS, &disk, &maps);
}
